//! Bad days: each call of keeper, files and output that fails in turn, the acts of former owners, a keeper that lies,
//! and files at their greatest length, by the program's own call and by the scripted world.
//!
//! A case is a row of a table, and one function tells whether it holds. What is handed over is let go by the
//! function that takes it, so that no case owns anything at a way out.
mod each_call;
mod former_owners;
mod lies;
mod long_files;
mod overtaken;
mod rounds;
mod worlds;
