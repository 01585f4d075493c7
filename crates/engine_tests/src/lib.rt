//! What no clause says of what lies below the program: values, texts and limits of the lower crates, by what is just in
//! and what is just out; books, workers at desks, scripted worlds, and histories that are printed and audited, by rows
//! that were worked out by hand.
//!
//! Stands on the crates from `mw_types` to `world` and `workers`, and has their tests, since in each of them the crate
//! would be proved once more for its own, and each crate of tests is a program that is proved and has a cost of its
//! own. No call is public. Definitions: `specs/`, the books, the seats and the computations of the tests.
#![tactic(auto)]

#[cfg(test)]
mod tests;
