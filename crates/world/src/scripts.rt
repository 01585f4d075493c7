//! Scripts: the world that does their steps for real, the scripts that were worked by hand, and what holds of
//! every script.

pub(crate) mod copies;
mod deliveries;
pub(crate) mod examples;
mod flights;
pub(crate) mod keeping;
pub(crate) mod owners;
pub(crate) mod relays;
pub(crate) mod script_runs;
mod worker_calls;
pub(crate) mod world;
mod world_steps;
