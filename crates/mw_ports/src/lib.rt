//! The outside world as traits: where files are read and where text is written.
//!
//! Each trait has an implementation in memory, of which a contract can see what it holds, and which
//! fails at the calls that it is given; and a thin one over the runtime, of which a contract can see
//! nothing. Beside them stand the words that the process was called with, and a gate, at which a test
//! holds a worker. Stands on `mw_types`. Public contract: a fault or a lack is answered only where its
//! count rose in that call; a read gives the file's bytes, and a write appends a beginning of the piece;
//! the words are those of the runtime but the first; of a gate nothing is said.
//! Definitions: `specs/Shelves.antt` and `specs/Sinks.antt`, what a shelf and a sink hold;
//! `specs/Fakes.antt`, what those in memory are; `specs/Causes.antt` of `mw_types`, what a count says
//! of an answer.
#![tactic(auto)]

mod file_shelf;
mod gate;
mod mem_shelf;
mod mem_sink;
mod opened;
mod out_sink;
mod shelf;
mod sink;
mod tally;
mod words;

pub use file_shelf::FileShelf;
pub use gate::{Gate, OpenGate, Point};
pub use mem_shelf::{FileList, MemShelf, NamedFile};
pub use mem_sink::MemSink;
pub use out_sink::OutSink;
pub use shelf::{Shelf, ShelfFault};
pub use sink::{Sink, SinkFault, write_all};
pub use words::{WordsFault, words_of};
