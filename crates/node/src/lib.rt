//! One worker: its leases, the rows that it has cached, the work that it has prepared, and the
//! messages that it has to send.
//!
//! A worker asks its desk for one entry at a time, and sends what an entry makes once the entry is
//! there. Stands on `outbox`, `holdings`, `book` and the crates below them. Public contract: a worker fits
//! its desk after each call (`Fits`), each call answers what is asked of the desk by what the
//! worker holds (`specs/Asking.antt`, `specs/Answers.antt`), and a refusal leaves the worker as it
//! was, or without the lease that was overtaken. Definitions: `specs/Workers.antt`, what a worker
//! is; `specs/Fits.antt`. What workers send each other is defined in `outbox`.
#![tactic(auto)]

mod beside;
mod cached_rows;
mod claims;
mod fires;
mod handling;
mod injecting;
mod known_marks;
mod message;
mod messages_out;
mod node;
mod outcome;
mod purges;
mod puts;
mod receiving;
mod reports;
mod settling;
mod sweeping;
mod unsent;
mod work;
mod writes;
mod yields;

pub use beside::node_fits_beside;
pub use fires::{effects_of, first_due};
pub use handling::{fired, handled, left_of_delivery};
pub use message::{Message, Parcel, Receipt};
pub use node::Node;
pub use outcome::{NodeFault, Outcome};
