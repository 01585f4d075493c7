//! The keeper of rows: what stores a row's bytes under its name, one in memory, and two that tell nothing.
//!
//! Stands on `key_intervals` and `mw_types`. Public contract: where a contract can see a keeper's
//! rows, `put` sets one row, `edit` changes bytes of one where they lie or does nothing, `scan` answers the
//! rows of an interval and `first` the least row; a keeper says that it failed only where a count rose, and
//! a refusal changes no row. Definitions:
//! `specs/Rows.antt`, what a keeper holds; `specs/Memory.antt`, what the keeper in memory is;
//! `specs/Causes.antt` of `mw_types`, when a keeper may say that it failed.
#![tactic(auto)]

mod blind_keeper;
mod calls;
mod keeper;
mod lying_keeper;
mod mem_keeper;

pub use blind_keeper::BlindKeeper;
pub use keeper::{Keeper, KeeperFault, KeptRow, KeptRowList};
pub use lying_keeper::LyingKeeper;
pub use mem_keeper::MemKeeper;
