//! Drains: which entry one thread writes next, the calls that write it, and what holds of the whole.

mod claiming;
pub(crate) mod drain_examples;
pub(crate) mod drain_turns;
pub(crate) mod draining;
mod firing;
mod injecting;
pub(crate) mod laws;
mod least_work;
mod purging;
pub(crate) mod report_rounds;
mod standing;
mod turns;
mod writes;
