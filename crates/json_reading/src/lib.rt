//! How a file's bytes are taken for JSON, and what the refusal of a file says of it.
//!
//! What the readers of topologies and of event files share. Stands on `mw_types` and `serde_json`.
//! Public contract: `json_of` gives the value of bytes that are one JSON text in UTF-8, and nothing for
//! others. Definitions: `specs/Texts.antt`, which bytes are a JSON text; `specs/Refusals.antt`, how
//! steps that may refuse follow one another, and what a refusal says of the whole.
#![tactic(auto)]

mod text;

pub use text::json_of;
