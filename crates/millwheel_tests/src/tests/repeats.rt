//! Files of one text so many times.
use super::calls::Fault;
use super::events::EVENTS;
use super::looks::{Look, seen};
use super::topologies::{COUNT, TWO};
use super::{made, must_hold};
use std::alloc::Global;
use std::process::Abort;

/// A call over a file `f` of one text so many times: its name, its line, the text, how often it stands there, and what
/// is asked of the call. Beside it there are the topologies of one injector and of two, and the first example's lines.
pub type Repeat = (
    &'static str,
    &'static str,
    &'static str,
    usize,
    Look<'static>,
);

/// Ends the test where such a call is not so, and names it.
pub(super) fn all_are_repeated(rt: &impl Abort, alloc: Global, repeats: &[Repeat]) {
    for (name, line, text, times, look) in repeats {
        must_hold(rt, is_so(rt, alloc, line, text, *times, *look), *name);
    }
}

// Whether a call over a file of this text so many times is so.
fn is_so(
    rt: &impl Abort,
    alloc: Global,
    line: &str,
    text: &str,
    times: usize,
    look: Look<'_>,
) -> bool {
    let content = made(rt, text.repeat(alloc, times));
    let files = [
        ("t.json", COUNT),
        ("two.json", TWO),
        ("e", EVENTS),
        ("f", content.as_str()),
    ];
    let is_so = seen(rt, alloc, line, &files, Fault::Never, look);
    drop(content);
    is_so
}
