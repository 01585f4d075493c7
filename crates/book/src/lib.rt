//! The history of one store, behind the sequencer check: a write appends one entry and stores its
//! row, or is refused.
//!
//! A new owner of an interval gets a new sequencer, and a write under an older one is refused. Stands
//! on `history_laws`, `watermark` and the crates below them. Public contract: a claim and each write
//! append one entry that may follow the history, and the keeper holds the rows of the history and no
//! others; a refusal changes neither; no mark passes work that is left in its interval or above it.
//! Definitions: `specs/Lawful.antt`, what always holds of a book; `specs/Conditions.antt`, what a
//! caller has to know; `specs/Answers.antt`, what the calls answer; `specs/Marks.antt`, the marks;
//! `specs/Desks.antt`, what a worker knows of a history through a desk, over a book of its own or not.
#![tactic(auto)]

mod answers;
mod appending;
mod book_core;
mod books;
mod changes;
mod claims;
mod desk;
mod desk_refusal;
mod drafts;
mod entries;
mod fitting;
mod lease;
mod marking;
mod own_desk;
mod pending;
mod proposal;
mod refusals;
mod reports;
mod row_writes;
mod rows;
mod sender_map;
mod settling;
mod storing;
mod work_left;
mod writes;
mod writing;

pub use answers::{Claimed, NamedRow, NamedRowList, Written};
pub use book_core::Core;
pub use books::{Book, first_work};
pub use desk::{Desk, Seen};
pub use desk_refusal::DeskRefusal;
pub use entries::{Step, production_of, step_of};
pub use lease::Lease;
pub use own_desk::{NoNote, OwnDesk};
pub use proposal::Proposal;
pub use refusals::{ClaimRefusal, Stale, StartRefusal, StartWhy, WriteRefusal};
pub use rows::{purged, settled};
pub use sender_map::{settle, settled_by};
pub use work_left::work_after;
pub use writing::Writing;
