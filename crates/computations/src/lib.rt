//! The handlers of computations: what each kind does with a record and with a timer.
//!
//! A handler runs in a context, which has the row's key and state and takes what the handler sets
//! and produces. Stands on `mw_types` alone. Public contract: the handlers of `Kinds` leave exactly
//! what their definition says, and every computation keeps the laws of the trait. Definitions:
//! `specs/Handlers.antt`, what each kind leaves; `specs/Laws.antt`, what every computation keeps to.
#![tactic(auto)]

mod computation;
mod context;
mod count;
mod kinds;
mod pass;
mod places;
mod spike;
mod tally;

pub use computation::Computation;
pub use context::Context;
pub use kinds::Kinds;
pub use spike::is_spike;
