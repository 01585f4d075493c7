//! The parts of a run, the streams between them, and how a consumer's key is extracted.
//!
//! Stands on `mw_types`, `json_reading` and `serde_json`. Public contract: `read` gives the topology that
//! a file states, or names the first rule that it breaks; the accessors of `Topology` give what its shape
//! says, and every `Topology` keeps the rules; `Topology::fold` leaves its weak computations out.
//! Definitions: `specs/Shapes.antt`, what a topology is; `specs/Folding.antt`, what it is without its weak
//! computations; `specs/Rules.antt`, which shapes are topologies; `specs/Grammar.antt` and
//! `specs/FileRules.antt`, which bytes are a file.
#![tactic(auto)]

mod extraction;
mod file_parts;
mod file_rules;
mod folding;
mod grammar;
mod parts;
mod publishers;
mod reader;
mod refusal;
mod routes;
mod sample;
mod strong_parts;
mod subscription;
mod topology;
mod ways;
mod wiring;

pub use extraction::extract;
pub use file_rules::is_name;
pub use folding::Folded;
pub use reader::read;
pub use refusal::TopologyRefusal;
pub use routes::Routes;
pub use subscription::{By, Subscription};
pub use topology::Topology;
