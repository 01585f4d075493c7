//! The first live line with an id.

use mw_types::Bytes;

/// The first live line with an id, in a text that is collected.
#[derive(Drop)]
pub struct Held {
    /// The line's number, from 1.
    pub line: u32,
    /// What it has before its LF.
    pub text: Bytes,
}
