//! The program's own call over files in memory, on one thread.
use super::events::EVENTS;
use super::topologies::COUNT;
use super::{bytes_of, key, made, push_file, words};
use millwheel_cli::{Done, millwheel_alone};
use mw_ports::{FileList, MemShelf, MemSink};
use mw_types::{CallList, RowName};
use row_keeper::{Keeper, MemKeeper};
use std::alloc::Global;
use std::process::Abort;

/// Files in memory: the name of each, and what it holds.
pub type Files<'a> = &'a [(&'a str, &'a str)];

/// The line that works off one event file.
pub const SOLO: &str = "solo t.json e";

/// The line that does the steps of a plan before that.
pub const REPLAY: &str = "replay --plan p t.json e";

/// The first example: one count over windows of 60, and three records.
pub const FIRST: Files<'static> = &[("t.json", COUNT), ("e", EVENTS)];

/// What fails on a bad day: the calls of these numbers.
#[derive(Clone, Copy)]
pub enum Fault<'a> {
    /// Nothing does.
    Never,
    /// Reads of files.
    Reads(&'a [u64]),
    /// Calls of the keeper.
    Keeps(&'a [u64]),
    /// Writes to a sink that takes eight bytes a call.
    Writes(&'a [u64]),
    /// The same, which do not fail but take nothing.
    Idles(&'a [u64]),
}

// The calls of these numbers.
fn numbers(rt: &impl Abort, alloc: Global, of: &[u64]) -> CallList {
    CallList::from_vec(made(rt, of.to_vec(alloc)))
}

// A shelf with these files, whose reads of these numbers fail.
fn shelf(rt: &impl Abort, alloc: Global, files: Files<'_>, failing: &[u64]) -> MemShelf {
    let mut list = FileList::new(alloc);
    for (name, content) in files {
        let bytes = bytes_of(rt, alloc, content.as_bytes());
        push_file(rt, alloc, &mut list, name, bytes);
    }
    MemShelf::of(list, numbers(rt, alloc, failing))
}

/// An ample sink.
pub(super) fn sink(alloc: Global) -> MemSink {
    MemSink::of(alloc, 65536, CallList::new(alloc), CallList::new(alloc))
}

/// The sink of a bad day, which is an ample one where no write fails.
pub(super) fn sink_of(rt: &impl Abort, alloc: Global, fault: Fault<'_>) -> MemSink {
    match fault {
        Fault::Writes(of) => MemSink::of(alloc, 8, numbers(rt, alloc, of), CallList::new(alloc)),
        Fault::Idles(of) => MemSink::of(alloc, 8, CallList::new(alloc), numbers(rt, alloc, of)),
        _ => sink(alloc),
    }
}

/// A keeper without rows, whose calls of these numbers fail.
pub(super) fn keeper(rt: &impl Abort, alloc: Global, failing: &[u64]) -> MemKeeper {
    MemKeeper::new(alloc, numbers(rt, alloc, failing))
}

/// Puts a row of part 1 with one byte.
pub(super) fn put(rt: &impl Abort, alloc: Global, keeper: &mut impl Keeper, text: &str, byte: u8) {
    let name = RowName {
        part: 1,
        key: key(rt, alloc, text),
    };
    made(rt, keeper.put(alloc, &name, &[byte]));
    drop(name);
}

/// What a call with this line answers over these files, whose reads of these numbers fail, and writes to a sink. No
/// other function calls the program so, since each that does carries what its clauses tell.
pub(super) fn called<K: Keeper>(
    rt: &impl Abort,
    alloc: Global,
    line: &str,
    files: Files<'_>,
    failing: &[u64],
    keeper: K,
    out: &mut MemSink,
) -> Done<K> {
    let mut shelf = shelf(rt, alloc, files, failing);
    let words = words(rt, alloc, line);
    let done = millwheel_alone(alloc, words.as_slice(), &mut shelf, keeper, out);
    drop(words);
    drop(shelf);
    done
}
