//! The program's own call over files, text and rows in memory: texts, histories and rows that were worked out by
//! hand, in the mode run too, whose workers are threads; runs on a bad day: each call of keeper, files and output
//! that fails in turn, the acts of former owners, a keeper that lies, and files at their greatest length; and kept
//! rows: a keeper's real files, and runs of the program over one.
//!
//! Stands on `millwheel_cli`, `world` and `sqlite_keeper`, and has tests alone, since there each crate would be
//! proved once more for them. No call is public.
#![tactic(auto)]

#[cfg(test)]
mod tests;
