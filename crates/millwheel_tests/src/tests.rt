//! The program's own call, over files, text and rows in memory, and over kept rows.
ghost use Rattle.std.specs.Prelude.{◌≡◌, Ok};

mod audits;
mod bad_days;
mod calls;
mod collections;
mod events;
mod faults;
mod histories;
mod kept;
mod kept_rows;
mod lives;
mod loads;
mod looks;
mod many_lines;
mod plain_counts;
mod refusals;
mod repeats;
mod replays;
mod runs;
mod several_files;
mod statuses;
mod texts;
mod threads;
mod topologies;
mod weak_passes;

use millwheel_cli::Status;
use mw_ports::{FileList, NamedFile};
use mw_types::{Bytes, Key, Name, Seq};
use std::alloc::Global;
use std::fmt::Display;
use std::process::Abort;

// What is said of words that are no command.
const USAGE: &str = "usage: millwheel MODE ARGS";

// Ends the test where a case does not hold, and names it.
fn must_hold(rt: &impl Abort, holds: bool, name: impl Display + Drop) {
    assert!(rt; holds, "{name}");
}

// What was made. The test ends where it was not.
fn made<T: Drop, E: Drop>(rt: &impl Abort, given: Result<T, E>) -> T
    ensures { given ≡ Ok result }
{
    match given {
        Ok(it) => it,
        Err(_) => rt.panic("it was not made"),
    }
}

// The key of a text, which may be the empty one.
fn key(rt: &impl Abort, alloc: Global, text: &str) -> Key {
    if text.is_empty() {
        Key::none(alloc)
    } else {
        made(rt, Key::of(alloc, text))
    }
}

// Puts a file of this name and these bytes behind the others.
fn push_file(rt: &impl Abort, alloc: Global, list: &mut FileList, name: &str, bytes: Bytes) {
    let name = made(rt, Name::of(alloc, name));
    made(rt, list.push(NamedFile { name, bytes }));
}

// The same bytes, as a value that owns them.
fn bytes_of(rt: &impl Abort, alloc: Global, bytes: &[u8]) -> Bytes {
    Bytes::from_vec(made(rt, bytes.to_vec(alloc)))
}

// The words of a line, which stand with one blank between them; `""` is the empty word.
fn words(rt: &impl Abort, alloc: Global, line: &str) -> Seq<Name> {
    let mut words = Seq::new(alloc);
    if !line.is_empty() {
        for word in line.split(' ') {
            let word = if word == "\"\"" { "" } else { word };
            made(rt, words.push(made(rt, Name::of(alloc, word))));
        }
    }
    words
}

// Whether this is what the program says of a status.
fn is_said(rt: &impl Abort, alloc: Global, status: &Status, message: &str) -> bool {
    let said = made(rt, format!(in alloc; "{status}"));
    let is_so = said.as_str() == message;
    drop(said);
    is_so
}
