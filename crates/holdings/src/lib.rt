//! What a worker holds of each interval that it has claimed: its lease, and the rows of the
//! interval as the lease knows them.
//!
//! A call asks a desk for one entry, and keeps the row that the entry leaves; a refusal leaves all
//! as it was. Stands on `book` and the crates below it. Public contract: what is held fits the desk
//! after each call (`AreAllHeld`), an accepted write is the desk's, and each other row stays; the first
//! timer and the own work of an interval are exact. Both are kept beside the rows, so that they are
//! asked and changed in a time logarithmic in the rows; the row to purge is sought among the rows that
//! have seen ids, in order, up to the first that may forget some; what is pending goes over all rows.
//! Definitions: `specs/Holding.antt`; `specs/Timers.antt`, `specs/Purges.antt` and
//! `specs/Pendings.antt` for what is found among the rows.
#![tactic(auto)]

mod cache;
mod claims;
mod due;
mod first_timer;
mod held;
mod holdings;
mod index;
mod indexed;
mod own_work;
mod pending;
mod row_work;
mod seen;
mod slots;
mod to_purge;
mod writes;

pub use claims::fits_beside;
pub use first_timer::RowTimer;
pub use held::Held;
pub use holdings::Holdings;
pub use pending::{Sent, SentList};
pub use row_work::oldest_timer;
