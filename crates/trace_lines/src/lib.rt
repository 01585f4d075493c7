//! What the lines of a printed history say: of which entries they may be, and what was chosen of each.
//!
//! Stands on `run_history`, `history_laws` and `read_back`, takes from `live_outlet` how the print of
//! an id is read, and from `book` that ids are within bounds. Public contract: `next_line` cuts a text
//! line by line, `begins_entry` says which lines begin as those of entries, and `choice_at` answers
//! what the definition reads of a line. The line of an entry tells its choice, entries of lawful
//! histories are such entries, a printed history is parted into the lines of its entries, and lines
//! have at most one reading.
//! Definitions, in the order of reading: `specs/Lines.antt`, which lines a text has;
//! `specs/Entries.antt`, which of them are lines of an entry; `specs/Readings.antt`, of which history a
//! text is; `specs/Refusals.antt`, which line is the first that is wrong; `specs/Choices.antt`, what
//! a line tells of the choice of its entry; `specs/Values.antt`, which values a case's lines have.
#![tactic(auto)]

mod choice;
mod keyed;
mod laws;
mod lines;
mod reading;
mod refusal;

pub use choice::Choice;
pub use keyed::case_is_keyed;
pub use laws::{
    lawful_entries_are_entries, lines_have_one_reading, lines_tell_choices,
    printed_histories_are_parted,
};
pub use lines::{begins_entry, next_line};
pub use reading::{choice_at, key_of};
pub use refusal::{AuditRefusal, AuditWhy};
