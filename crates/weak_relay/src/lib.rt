//! The ids of the records that a weak computation sent on and that are not acknowledged to it yet.
//!
//! Stands on `mw_types`. Public contract: `forward` holds an id, once however often it comes; `back` says
//! whether an id was held, and holds it no more; neither changes what is held of another id. Definition:
//! `specs/Relays.antt`.
#![tactic(auto)]

mod relay;

pub use relay::Relay;
