//! Results while a run goes on: each emission as a line with its id, and such lines collected.
//!
//! Stands on `run_history`, `read_back` and `mw_ports`. Public contract: an `Outlet` writes the live lines
//! of the entries from its place on, and after a fault says how far it came; `collect` answers each live
//! line of a text once, ascending by id, or the first that differs from an earlier one of its id.
//! Definitions: `specs/Lib.antt` names them in the order of reading.
#![tactic(auto)]

mod collecting;
mod guess;
mod held;
mod laws;
mod line;
mod live;
mod outlet;
mod refusal;

pub use collecting::{Collected, collect};
pub use guess::{id_at, id_in, stamp_at, text_at, value_at};
pub use held::Held;
pub use laws::{
    covering_texts_collect_once, exactly_live_lines_are_told, no_live_line_begins_another,
    outlets_go_on_as_histories_grow, texts_cover_what_was_pumped,
};
pub use line::LiveLine;
pub use live::live_line;
pub use outlet::Outlet;
pub use refusal::CollectRefusal;
