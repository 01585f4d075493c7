//! The low watermark as it is kept: the oldest of some work, and the least mark of a part.
//!
//! Stands on `run_history`, and its lemmas on `history_laws`. Public contract: an `Oldest` holds one
//! stamp more with each that is added and one less with each that is removed, and `least` is the
//! least of them; `feeding` names the intervals of the parts that feed an interval's part, `inputs`
//! gives their least mark, and `low` the least mark of a part's intervals. Definitions:
//! `specs/Marks.antt`, which intervals and marks these are; `specs/Watermarks.antt` of
//! `run_history`, what the least is.
#![tactic(auto)]

mod marks;
mod oldest;

pub use marks::{feeding, inputs, low};
pub use oldest::Oldest;
