//! The laws of histories: what holds of every history that is legal, or fenced, whoever wrote it.
//!
//! Each law is the contract of a function with an empty body, and says what the definitions of
//! `run_history` say of each history and of each beginning of it; `case_is_runnable` gives a caller
//! the premise that many of them have. Stands on `run_history`, `key_intervals`, `row_parts` and
//! `row_keeper`. Public contract: the floor and the low watermarks never fall; ids tell what waits,
//! what is finished and who sent it, and each record is handled once; a row that was read under the
//! last claim of its interval is the row of the whole history, and a write that was worked out on it
//! keeps the history lawful; marks that are safe stay safe, and keys are keys. Definitions:
//! `specs/Writes.antt`, when a write may follow the whole history; `specs/Ids.antt`, what ids tell;
//! `specs/Stamps.antt` and `specs/Keys.antt`, which timestamps and keys stand. Which histories are
//! fenced, and which marks are safe, say `specs/Fences.antt` and `specs/Marks.antt` of
//! `run_history`.
#![tactic(auto)]

mod claims;
mod fitting;
mod floors;
mod ids;
mod intervals;
mod keys;
mod marks;
mod once;
mod printing;
mod rows;
mod runnable;
mod senders;
mod stamps;
mod stored;
mod unfinished;
mod watermarks;
mod writes;

pub use claims::last_claims_are_latest;
pub use fitting::rows_fit_their_names;
pub use floors::{floor_is_least_unacknowledged, floor_never_falls};
pub use ids::{ids_ascend, ids_tell_what_is_finished, ids_tell_what_waits};
pub use intervals::rows_lie_in_the_interval_that_has_them;
pub use keys::keys_are_keys;
pub use marks::{
    own_work_is_as_known, reported_marks_are_safe, safe_marks_are_under_low_watermarks,
    safe_marks_stay_safe, work_above_never_falls,
};
pub use once::{finished_runs_handled_each_record, records_are_handled_once};
pub use printing::legal_histories_can_be_printed;
pub use rows::{rows_are_as_known, rows_are_as_seen, rows_change_by_their_entries};
pub use runnable::case_is_runnable;
pub use senders::{pending_is_unacknowledged, senders_keep_what_they_made};
pub use stamps::{stamps_are_in_time, states_are_within_bounds};
pub use stored::one_row_is_stored_anew;
pub use unfinished::{finished_runs_are_done, work_is_counted_row_by_row};
pub use watermarks::low_watermark_never_falls;
pub use writes::{claims_are_lawful, seen_writes_are_lawful};
