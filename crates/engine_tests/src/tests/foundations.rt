//! The tests of the lower crates, a module for what each is about.
//!
//! A case is a row of a table, and one function tells whether it holds. What is handed over is let go by the
//! function that takes it, so that no case owns anything at a way out.
mod command_lines;
mod copies;
mod entry_copies;
mod event_files;
mod handlers;
mod histories;
mod history_lines;
mod intervals;
mod json_texts;
mod keepers;
mod limits;
mod lines;
mod marks;
mod ports;
mod row_bytes;
mod rows;
mod shared_lists;
mod topologies;
mod types;

use super::{made, must};
use mw_types::{CallList, Key, Name, RowName, Seq};
use std::alloc::Global;
use std::process::Abort;

// What holds or does not, as a row of a table.
trait Holds {
    // Whether it holds.
    fn holds<R: Abort>(&self, rt: &R, alloc: Global) -> bool;
}

// Ends the test where a row of a table does not hold, and tells its number.
fn all_hold<C: Holds>(rt: &impl Abort, alloc: Global, cases: &[C]) {
    for (at, case) in cases.iter().enumerate() {
        must(rt, case.holds(rt, alloc), at);
    }
}

// The same of rows that have a name, which is told.
fn each_holds<C: Holds>(rt: &impl Abort, alloc: Global, cases: &[(&str, C)]) {
    for (name, case) in cases {
        must(rt, case.holds(rt, alloc), *name);
    }
}

// What is done with a value, or seen of it.
trait DoneWith<T> {
    // Does it, and tells whether what is seen is as told.
    fn is_done<R: Abort>(&self, rt: &R, alloc: Global, value: &mut T) -> bool;
}

// Does all of it with a value, and gives it back.
fn done<T, D: DoneWith<T>>(rt: &impl Abort, alloc: Global, value: T, deeds: &[D]) -> T {
    let mut value = value;
    for (at, deed) in deeds.iter().enumerate() {
        must(rt, deed.is_done(rt, alloc, &mut value), at);
    }
    value
}

// Whether two lists have the same elements.
fn are_equal<T: PartialEq>(one: &[T], other: &[T]) -> bool {
    one == other
}

// The key of this text, or none where there is no text. It has no clause, so that no caller carries what `Key::of`
// tells, which would be slow to prove.
fn key_of(rt: &impl Abort, alloc: Global, text: &str) -> Key {
    if text.is_empty() {
        Key::none(alloc)
    } else {
        made(rt, Key::of(alloc, text))
    }
}

// The name of the row of a key in this part.
fn name_of(rt: &impl Abort, alloc: Global, part: u32, text: &str) -> RowName {
    let key = key_of(rt, alloc, text);
    RowName { part, key }
}

// The calls of these numbers.
fn calls(rt: &impl Abort, alloc: Global, numbers: &[u64]) -> CallList {
    CallList::from_vec(made(rt, numbers.to_vec(alloc)))
}

// Appends texts, each so often.
fn push_parts(rt: &impl Abort, text: &mut String, parts: &[(&str, u32)]) {
    for (part, times) in parts {
        for _ in 0..*times {
            made(rt, text.push_str(part));
        }
    }
}

// Appends a number.
fn push_number(rt: &impl Abort, alloc: Global, text: &mut String, number: u32) {
    let digits = made(rt, format!(in alloc; "{number}"));
    made(rt, text.push_str(digits.as_str()));
    drop(digits);
}

// Texts, each so often, as one.
fn text_of(rt: &impl Abort, alloc: Global, parts: &[(&str, u32)]) -> String {
    let mut text = String::new(alloc);
    push_parts(rt, &mut text, parts);
    text
}

// Whether a name has this text and its length.
fn is_name(name: Name, text: &str) -> bool {
    let is = name.text() == text && name.len() == text.len();
    drop(name);
    is
}

// Whether a key has this text.
fn is_text(key: Key, text: &str) -> bool {
    let is = key.text() == text;
    drop(key);
    is
}

// Whether a list has these elements.
fn are<X: PartialEq + Drop>(list: Seq<X>, want: &[X]) -> bool {
    let are = list.as_slice() == want;
    drop(list);
    are
}

// How many elements a list has.
fn length_of<X: Drop>(list: Seq<X>) -> usize {
    let length = list.len();
    drop(list);
    length
}

// Why something was refused, if it was.
fn refusal_of<T: Drop, E: Drop>(given: Result<T, E>) -> Option<E> {
    given.err()
}
