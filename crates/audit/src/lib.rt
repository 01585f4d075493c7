//! Whether a printed history, with its result behind it, is that of a lawful run, and whose.
//!
//! For whoever has the topology, the files and the text, and nothing of the run. Each line tells a
//! choice, which is first guessed by its places; the one lawful entry of the choice is made and
//! printed, and its line compared, so the time is linear in the lines but for the logarithm of the
//! rows. What stands after the lines so far is a `Standing`, which follows a history entry by entry for
//! whoever has neither its keeper nor its workers. Stands on `node`, `trace_lines` and the crates below
//! them. Public contract: `audit` answers the history exactly where the text is that of a
//! legal, fenced and finished run and of its result, and else the first line that is wrong, and why;
//! a `Standing` takes any entry that may come next, and no other: its `entry_of` answers the one lawful
//! entry of a choice, or none exactly where no lawful entry has it.
//! Definitions: those of `trace_lines`, of which `specs/Readings.antt` says of which history a text
//! is, and `specs/Refusals.antt` which line is the first that is wrong; `specs/Choices.antt`, which entry of
//! a choice may come next; `specs/Standings.antt`.
#![tactic(auto)]

mod acknowledging;
mod audits;
mod behind;
mod chosen;
mod claiming;
mod entries;
mod finding;
mod firing;
mod forms;
mod growing;
mod handling;
mod heads;
mod injecting;
mod kept;
mod law;
mod laws;
mod leaving;
mod members;
mod parts;
mod printed;
mod purging;
mod quick;
mod senders;
mod standings;
mod unlike;
mod waiting;
mod work_left;
mod works;

pub use audits::audit;
pub use law::{choices_have_one_entry, one_pass_finds_the_low_watermarks};
pub use laws::{refused_texts_are_of_no_run, runs_have_one_text};
pub use standings::Standing;
