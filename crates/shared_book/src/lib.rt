//! The history of one store, which threads share: each appends through a seat of its own, and one
//! at a time has the turn to append.
//!
//! A turn that another has is refused at once, and no call waits. Stands on `book` and on the kit's
//! `atomic_table`. Public contract: whatever the threads' calls come between one another, there is
//! one history, of which each seat has seen a beginning; each entry is one seat's own; and a
//! lease's rows are as its seat last saw them. Marks and the floor are words that seats read and raise
//! without the turn, and no mark passes work that is left, also where its lease was stale when it was
//! raised. A `SharedDesk` is the desk of a seat. Definitions: `specs/FenceLaw.antt` and
//! `specs/MarksLaw.antt`, what holds between any two atomic steps; `specs/Steps.antt` and
//! `specs/MarkSteps.antt`, what each step does to a seat's view; `specs/Turns.antt`, what the calls ask
//! and answer; `specs/SharedDesks.antt`, what a desk knows.
#![tactic(auto)]

mod beginning;
mod catching_up;
mod claiming;
mod desk_claims;
mod desk_reports;
mod desk_writes;
mod finishing;
mod in_turn;
mod joined_arrays;
mod joins;
mod mark_words;
mod marks;
mod meets;
mod opening;
mod put_back;
mod rule;
mod seats;
mod settling;
mod shared;
mod shared_desk;
mod slots;
mod turn;
mod turn_calls;
mod views;

pub use opening::SharedRefusal;
pub use rule::{
    Append, Dealt, Fault, Fetch, Give, Joined, Law, LoadFloor, LoadMark, Look, Noted, Open,
    RaiseFloor, RaiseMark, Take,
};
pub use seats::{Note, Seat};
pub use shared::{Key, Shared};
pub use shared_desk::SharedDesk;
pub use turn::{Busy, Turn};
pub use views::{Basis, Settled, View};
