//! The command line: which words are a command, and what it asks for.
//!
//! The words are positionals, of which the first is the mode, options with one value each, and two flags;
//! the mode says which of them it takes. They are read with `clap`, beside a rule of our own on words that
//! begin with one `-`. Stands on `mw_types`, `text_lines` and `clap`. Public contract: `read_words` answers the command
//! that the words are, and `Usage` exactly where they are none; want of memory is its one free answer.
//! Definitions, in the order of reading: `specs/Words.antt`, what the words say before the mode is looked
//! at; `specs/Grammar.antt`, which commands there are.
#![tactic(auto)]

mod command;
mod line;
mod number;
mod parser;
mod reader;
mod refusal;
mod word;

pub use command::{Call, Command, Inputs};
pub use reader::read_words;
pub use refusal::WordsRefusal;
