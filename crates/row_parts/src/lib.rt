//! The row that is kept for one key of one part, and the bytes of its parts.
//!
//! A row keeps its timers, its unacknowledged deliveries and the ids that it handled in strict order, so
//! each is found by binary search. Stands on `mw_types`. Public contract: each call changes the one list
//! that it names, as `specs/Contents.antt` says, and nothing else; `is_finished` is exact; `state_bytes`
//! writes the one spelling of a state, and `read_state` answers the state whose spelling the bytes are,
//! and Damaged only where there is none. Definitions: `specs/Contents.antt`, what a row is and what
//! happens to its lists; `specs/Spelling.antt`, the bytes of a row and of a state.
#![tactic(auto)]

mod changes;
mod deliveries;
mod ids;
mod lists;
mod parts;
mod places;
mod refusal;
mod row;
mod spelled;
mod states;
mod timers;
mod words;

pub use changes::Own;
pub use ids::forget_below;
pub use lists::{InFours, Ranked, put_in_fours, put_list, take_ascending, take_list};
pub use refusal::StateRefusal;
pub use row::Row;
pub use spelled::Spelled;
pub use states::{put_state, read_state, state_bytes, take_state};
pub use timers::{is_set, set_timer, take_timer};
