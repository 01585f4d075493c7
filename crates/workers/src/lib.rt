//! Workers in two threads: their mailboxes, what a worker does in its turn of work at the desk of a book
//! that threads share, and the rounds of turns that several do at once.
//!
//! A mailbox is a queue with room for so many messages, into which threads put and from which they take,
//! each with a pass of its own. A turn of work goes by steps: marks that others have reported are loaded,
//! what is prepared is written, messages are sent and taken, timers fire, lines are injected, ids are
//! forgotten and own work is reported, each tried until nobody else has the turn to append. A round is one
//! turn of work of each worker, in two threads beside each other, and a plan says what happens to workers
//! between and in the rounds. Stands on `node`, `shared_book`, `plans` and the kit's
//! `crossbeam_queue`. Public contract: what is taken from a mailbox is of its office, as what was put is;
//! `slice` appends so many entries at most, none of them a claim, loses a lease only to another, and fails
//! only for its cause, and each injector that it had has exactly 16 lines more, or all that were left; after
//! `rounds` the book comes back, whatever came between the threads' steps, its history goes on by at most so
//! many entries, and where it was empty it begins with one claim of each interval, each by the worker that
//! the interval's number names. Definitions, in the order of reading: `specs/Mailboxes.antt` and
//! `specs/PassLists.antt`, what a mailbox and a pass know; `specs/Slices.antt`, what a turn of work does to
//! a desk; `specs/Passing.antt`, the mailboxes of a run; `specs/Rounds.antt`, what rounds leave in a
//! history; `specs/Crews.antt` and `specs/Claims.antt`, what each worker knows between two steps.
#![tactic(auto)]

mod acting;
mod boxes;
mod budget;
mod calls;
mod claim_tries;
mod claiming;
mod counts;
mod crew;
mod dealing;
mod ended;
mod hand;
mod held;
mod joining;
mod learning;
mod letter;
mod mailbox;
mod office;
mod orders;
mod pass_list;
mod passes;
mod posting;
mod rounding;
mod running;
mod seating;
mod slicing;
mod steps;
mod taking;
mod telling;
mod tries;
mod turns;
mod waiting;

pub use ended::Rounds;
pub use hand::Hand;
pub use letter::Letter;
pub use mailbox::{Full, Mailbox};
pub use office::Office;
pub use orders::Orders;
pub use passes::MailPass;
pub use running::rounds;
pub use slicing::slice;
