//! Lines, words and decimal numbers of a text.
//!
//! What event files, schedules and the command line share in their reading: a text is cut line by line, a
//! line word by word, and a word of one to ten digits is a number. Stands on `mw_types`, and finds by
//! `memchr`. Public contract: each call gives exactly the line, the word, the number or the lines' meaning
//! that the definition gives; `read_all` refuses only with the first line that is out of form, unless
//! memory ran out, and asks a `LineReader` what one line says. Definitions, in the order of reading:
//! `specs/Lines.antt`, which lines a text has; `specs/Words.antt`, how a line is cut into words;
//! `specs/Numbers.antt`, which number a word is; `specs/Readings.antt`, what the lines of a text say
//! together.
#![tactic(auto)]

mod lines;
mod numbers;
mod readings;
mod words;

pub use lines::{first_line, without_return};
pub use numbers::{below, between, number_of};
pub use readings::{LineReader, is_skipped, read_all};
pub use words::first_word;

/// The most record lines that one run may have, in all of its event files together or made from a seed.
pub const LINES_MAX: u32 = 1 << 18;
