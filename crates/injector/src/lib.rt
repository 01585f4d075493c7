//! The records of one injector's file, in order, with what each line declared late.
//!
//! An event file has record lines and watermark lines, each of which is one JSON object. A record
//! is late where it is below a watermark line before it. Stands on `mw_types`, `json_reading` and
//! `serde_json`, and finds and spells by `memchr` and `itoa`. Public contract: `read_lines` is Ok
//! only where each line keeps the rules, with the source that the definition gives; it refuses only
//! with the first line that breaks a rule, and the first rule that it breaks, unless memory ran out,
//! which any call may answer. `Items` gives each record of a source, and the watermark that the file
//! states before it. Definitions, in the order of reading: `specs/Sources.antt`, what is read;
//! `specs/EventLines.antt`, what one line says; `specs/EventFiles.antt`, what a file holds.
#![tactic(auto)]

mod item;
mod items;
mod lines;
mod progress;
mod reading;
mod refusal;
mod short_form;

pub use item::Item;
pub use items::{Items, ItemsList};
pub use lines::read_lines;
pub use refusal::{LineWhy, LinesRefusal};
