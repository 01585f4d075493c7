//! Histories: which are legal, what stands after one, and what is written of it.
//!
//! Stands on `topology`, `injector`, `computations` and `row_parts`. Public contract: `make`,
//! `emissions`, `first_row`, `result_text`, `lines_text`, `summary_line`, `entry_line` and
//! `history_lines` answer what the definitions say, and an `Emitter` tells entry by entry what a
//! history emits.
//! Definitions: `specs/Lib.antt` names them in the order of reading;
//! `specs/Legal.antt` says which histories are legal, and `specs/Printing.antt` which can be printed.
#![tactic(auto)]

mod case;
mod details;
mod emitted;
mod emitter;
mod entry_lines;
mod entry_ref;
mod entry_values;
mod first;
mod history;
mod lent_packing;
mod line;
mod made;
mod members;
mod names;
mod packed;
mod summary;
mod text;

pub use case::Case;
pub use emitted::emissions;
pub use emitter::Emitter;
pub use entry_lines::{entry_line, history_lines};
pub use entry_ref::EntryRef;
pub use first::first_row;
pub use history::History;
pub use line::ResultLine;
pub use made::{Made, make, production};
pub use summary::summary_line;
pub use text::{lines_text, result_text, value_line};
