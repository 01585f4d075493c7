//! The mode `load`, and where rows are kept.
use super::calls::Fault;
use super::looks::{Look, seen};
use super::{made, must_hold, words};
use millwheel_cli::{keep_name, load_lines};
use mw_types::Name;
use std::alloc::Global;
use std::process::Abort;

/// What `load 7 3` writes.
pub const SUMMARY: &str = "{\"fired\":3,\"handled\":3,\"injected\":3,\"late\":0}\n";

#[test]
fn load_of_three_lines(rt: HostRuntime) {
    let look = Look::Writes(SUMMARY);
    let is_so = seen(&rt, rt.alloc(), "load 7 3", &[], Fault::Never, look);
    must_hold(&rt, is_so, "three lines");
}

// Whether so many lines of load under seed 7 end so; where that is all of them, it is all that there is.
fn load_ends_with(rt: &impl Abort, alloc: Global, lines: u32, end: &str, is_all: bool) -> bool {
    let text = made(rt, load_lines(alloc, 7, lines));
    let is_whole = !is_all || text.len() == end.len();
    let is_so = is_whole && text.as_slice().ends_with(end.as_bytes());
    drop(text);
    is_so
}

// The lines of load under seed 7, three of them.
const THREE: &str = r#"{"key":"b","ts":99}
{"key":"t","ts":109}
{"key":"i","ts":32}
"#;

// So many lines, and all of them or how they end.
static LINES: [(u32, &str, bool); 2] = [(3, THREE, true), (50, "{\"watermark\":520}\n", false)];

#[test]
fn the_lines_of_load(rt: HostRuntime) {
    for (lines, end, is_all) in &LINES {
        let is_so = load_ends_with(&rt, rt.alloc(), *lines, end, *is_all);
        must_hold(&rt, is_so, *lines);
    }
}

/// Whether the words of a line keep rows in the file of this name, or in none.
pub(super) fn keeps_in(rt: &impl Abort, alloc: Global, line: &str, file: Option<&str>) -> bool {
    let words = words(rt, alloc, line);
    let name = made(rt, keep_name(alloc, words.as_slice()));
    drop(words);
    let is_so = name.as_ref().map(Name::text) == file;
    drop(name);
    is_so
}

// Lines, and where rows are kept.
static KEPT: [(&str, Option<&str>); 3] = [
    ("solo --keep rows.db t.json e", Some("rows.db")),
    ("solo t.json e", None),
    ("load 7 3 --keep rows.db", None),
];

#[test]
fn rows_are_kept_where_the_words_say_so(rt: HostRuntime) {
    for (line, file) in &KEPT {
        must_hold(&rt, keeps_in(&rt, rt.alloc(), line, *file), *line);
    }
}
