//! What a worker has to send, and the writes that put it there.
//!
//! A worker asks its desk for one entry at a time, and what the entry makes goes into the outbox once it is
//! there: a refusal leaves the outbox as it was. Stands on `holdings`, `book` and the crates below
//! them. Definitions: `specs/Messages.antt`, what workers send each other.
#![tactic(auto)]

mod outbox;
mod outgoing;
mod reports;
mod sends;
mod writes;

pub use outbox::Outbox;
pub use outgoing::Outgoing;
pub use reports::report_work;
pub use sends::{made, made_by};
pub use writes::{write_made, write_work};
