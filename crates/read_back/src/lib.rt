//! What is written as JSON is read as the value that it was.
//!
//! Stands on `serde_json`. Public contract: the compact text of a value without floats, as a line of a
//! history is, is UTF-8, has no control byte, and reads as that value. Each law is a call that does
//! nothing when it runs. Definition: `specs/Writable.antt`, which values these are.
#![tactic(auto)]

mod laws;

pub use laws::{written_texts_are_utf8, written_texts_have_no_control, written_values_read_back};
