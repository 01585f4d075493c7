//! The intervals of keys into which each part is cut, and which of them has a row.
//!
//! An interval is what one worker owns at a time. Stands on `mw_types`. Public contract: `of` gives
//! the intervals of the parts' cuts in order, `split` and `merge` end intervals and give what they had
//! new numbers, and `find` gives the one live interval that has a row. Definitions:
//! `specs/Intervals.antt`, then `specs/Division.antt`, each to be read from the top.
#![tactic(auto)]

mod bounds;
mod given;
mod intervals;
mod making;
mod merging;
mod order;
mod refusals;
mod splitting;

pub use bounds::Bounds;
pub use given::Given;
pub use intervals::Intervals;
pub use refusals::{MergeRefusal, SplitRefusal};

/// The greatest number of numbers that are given to intervals of all parts together.
pub const INTERVALS_MAX: usize = 61;
