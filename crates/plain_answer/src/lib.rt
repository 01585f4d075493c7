//! The plain count of a case: what anybody would count from the records of its files.
//!
//! The definition cites no history, no handler, no timer and no watermark: a stream has what its
//! injector's file has, or what its computation makes of all that it reads at once. Stands on
//! `history_laws`. Public contract: the result text of every legal and finished history of a case
//! is the plain count of the case, in whatever order its entries came, so that two such histories
//! of a case have one text; `plain_text` writes that text from the files alone; `windows_of`
//! computes what a count gives; a plain count splits, of one part by the rows that read, and of a
//! case by what is the same of a key and of all that is extracted of it; and a case without its
//! weak computations has the lines that it has with plain passes in their place. Definitions:
//! `specs/Plain.antt`, which is to be read from the top, `specs/Ends.antt`, when a run is at its
//! end, `specs/Splits.antt`, what a shard is, `specs/Passes.antt`, which cases stand for one with
//! weak computations, and `specs/Rows.antt`, with cases that were worked by hand; no public clause
//! cites the other files of `specs/`.
#![tactic(auto)]

mod examples;
mod given;
mod law;
mod sends;
mod spikes;
mod streams;
mod summary;
mod text;
mod windows;

pub use examples::{
    a_late_record_counts_as_late, a_window_far_above_is_a_spike, the_greatest_total_stands,
    two_readings_are_two_members, two_windows_are_counted,
};
pub use law::{
    a_case_has_one_plain_text, cuts_follow_readings, finished_runs_write_one_text,
    plain_counts_split_by_key, plain_texts_split, results_are_the_plain_count,
    weak_passes_are_seen_through,
};
pub use text::plain_text;
pub use windows::windows_of;
