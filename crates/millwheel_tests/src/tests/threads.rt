//! The program's own call over files in memory, with threads.
use super::calls::{keeper, sink};
use super::looks::{Look, is_so};
use super::{bytes_of, made, push_file, words};
use millwheel_cli::{Done, load_lines, millwheel};
use mw_ports::{FileList, Gate, MemShelf, MemSink, OpenGate};
use mw_types::CallList;
use row_keeper::MemKeeper;
use std::alloc::Global;
use std::process::Abort;
use std::sync::Wait;
use std::thread::Threads;

// A shelf whose reads don't fail: a topology, a plan, and so many lines of the seed 7.
fn shelf(rt: &impl Abort, alloc: Global, files: (&str, &[u8], u32)) -> MemShelf {
    let (topology, plan, lines) = files;
    let topology = bytes_of(rt, alloc, topology.as_bytes());
    let plan = bytes_of(rt, alloc, plan);
    let lines = made(rt, load_lines(alloc, 7, lines));
    let mut list = FileList::new(alloc);
    push_file(rt, alloc, &mut list, "t.json", topology);
    push_file(rt, alloc, &mut list, "p", plan);
    push_file(rt, alloc, &mut list, "e", lines);
    MemShelf::of(list, CallList::new(alloc))
}

// What a call with this line answers over this topology, this plan and so many lines, and writes to a sink. One function
// calls the program so, since each that does carries what its clauses tell.
fn called<R: Threads + Wait + Abort + Sync, G: Gate + Sync>(
    rt: &R,
    alloc: Global,
    line: &str,
    files: (&str, &[u8], u32),
    keeper: MemKeeper,
    out: &mut MemSink,
    gate: &G,
) -> Done<MemKeeper> {
    let mut shelf = shelf(rt, alloc, files);
    let words = words(rt, alloc, line);
    let done = millwheel(rt, alloc, words.as_slice(), &mut shelf, keeper, out, gate);
    drop(words);
    drop(shelf);
    done
}

/// Whether a call with this line over these files and lines and this keeper, with a sink that has no text yet and this
/// gate, is so.
pub(super) fn seen_at<R: Threads + Wait + Abort + Sync, G: Gate + Sync>(
    rt: &R,
    alloc: Global,
    line: &str,
    files: (&str, &[u8], u32),
    keeper: MemKeeper,
    out: &mut MemSink,
    gate: &G,
    look: Look<'_>,
) -> bool {
    let done = called(rt, alloc, line, files, keeper, out, gate);
    let is_so = is_so(rt, alloc, &done, out.text(), look);
    drop(done);
    is_so
}

/// The same over a keeper without rows whose calls of these numbers fail, and a new sink, with nobody held.
pub(super) fn seen<R: Threads + Wait + Abort + Sync>(
    rt: &R,
    alloc: Global,
    line: &str,
    files: (&str, &[u8], u32),
    failing: &[u64],
    look: Look<'_>,
) -> bool {
    let mut out = sink(alloc);
    let keeper = keeper(rt, alloc, failing);
    let is_so = seen_at(rt, alloc, line, files, keeper, &mut out, &OpenGate, look);
    drop(out);
    is_so
}
