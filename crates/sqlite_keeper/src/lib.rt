//! A keeper of rows over an SQLite database in a file.
//!
//! Some hundred puts are one transaction, and `close` commits the last, so a run that is killed leaves the rows of
//! its puts up to the last commit. Stands on `row_keeper` and `sqlite`. Public contract: `SqliteKeeper` is a
//! `Keeper` whose rows no contract can see; it says that it failed only where its count rose, and a scan keeps to its interval and
//! its order whatever the database answers. What the file holds is tested and not proved. Definition:
//! `specs/Causes.antt` of `mw_types`, when a keeper may say that it failed.
#![tactic(auto)]

mod check;
mod database;
mod fault;
mod in_file;
mod keeper;
mod reading;

pub use keeper::SqliteKeeper;
