//! A file with a computation of each kind, with one place changed, and files of many sizes: what reading each gives.
use crate::tests::foundations::{Holds, made, push_number, push_parts, refusal_of, text_of};
use std::alloc::Global;
use std::process::Abort;
use topology::{TopologyRefusal, read};

/// One injector, and a computation of each kind.
pub(crate) const FILE: &str =
    r#"{"injectors":[{"name":"clicks","stream":"raw"}],"computations":[{"name":"per_minute","kind":"count","size":60,"reads":[{"stream":"raw","by":"key"}],"stream":"windows","cuts":["h","q"]},{"name":"spikes","kind":"spike","last":2,"times":3,"reads":[{"stream":"windows","by":"head"},{"stream":"raw","by":"key"}],"stream":"alerts"},{"name":"copy","kind":"pass","reads":[{"stream":"raw","by":"tail"}],"stream":"copies"}]}"#;

/// What is read.
pub(crate) enum Source {
    /// These bytes.
    Bytes(&'static [u8]),
    /// So many arrays, one in another.
    Nested(u32),
    /// The file with the first text, which stands in it, replaced by the second.
    Changed(&'static str, &'static str),
    /// The file with so many readings more.
    Readings(u32),
    /// A file with so many injectors and counts, of which each reads the first stream so often, and the first has so
    /// many cuts.
    Sized([u32; 4]),
    /// A file with so many weak passes, of which each reads the one above it twice, and a count of the last one and,
    /// so often, of the injector.
    Doubled(u32, u32),
    /// A file whose computation has these members beside others, and so many bytes after the first of its name, of its
    /// stream's name and of its cut.
    Long(&'static str, [u32; 3]),
}

// The file with one place replaced by a text, and by so many times another after it.
fn changed<'x>(
    rt: &impl Abort,
    alloc: Global,
    old: &str,
    new: &'x str,
    more: &'x str,
    times: u32,
) -> String {
    match FILE.split_once(old) {
        Some((head, tail)) => text_of(rt, alloc, &[(head, 1), (new, 1), (more, times), (tail, 1)]),
        None => String::new(alloc),
    }
}

// The file whose computation has these members, and so many bytes after the first of what has a length.
fn long(rt: &impl Abort, alloc: Global, members: &str, lengths: &[u32; 3]) -> String {
    let [name, stream, cut] = *lengths;
    let head =
        r#"{"injectors":[{"name":"i","stream":"s"}],"computations":[{"reads":[{"stream":"s","by":"key"}],"#;
    text_of(
        rt,
        alloc,
        &[
            (head, 1),
            (members, 1),
            (r#","name":"n"#, 1),
            ("n", name),
            (r#"","stream":"o"#, 1),
            ("o", stream),
            (r#"","cuts":["c"#, 1),
            ("c", cut),
            (r#""]}]}"#, 1),
        ],
    )
}

// The parts of one of several, where an empty one stands for its number, from 100, so that each has three digits.
type Numbered = &'static [&'static str];

// An injector.
const INJECTOR: Numbered = &[r#"{"name":"i"#, "", r#"","stream":"s"#, "", r#""}"#];

// A reading of the first stream.
const READ: Numbered = &[r#"{"stream":"s100","by":"key"}"#];

// A cut. They ascend.
const CUT: Numbered = &["\"", "", "\""];

// What a count has before its readings.
const COUNT: Numbered = &[
    r#"{"name":"c"#,
    "",
    r#"","kind":"count","size":60,"stream":"o"#,
    "",
    r#"","reads":["#,
];

// Appends those of these numbers, with a comma before each but that of the number 0.
fn push_all(
    rt: &impl Abort,
    alloc: Global,
    text: &mut String,
    parts: Numbered,
    from: u32,
    to: u32,
) {
    for number in from..to {
        push_parts(rt, text, &[(",", number.min(1))]);
        for part in parts {
            if part.is_empty() {
                push_number(rt, alloc, text, number.saturating_add(100));
            } else {
                made(rt, text.push_str(part));
            }
        }
    }
}

// Appends a file with so many injectors and counts, readings of each, and cuts of the first.
fn push_sized(rt: &impl Abort, alloc: Global, text: &mut String, numbers: &[u32; 4]) {
    let [injectors, counts, reads, cuts] = *numbers;
    push_parts(rt, text, &[(r#"{"injectors":["#, 1)]);
    push_all(rt, alloc, text, INJECTOR, 0, injectors);
    push_parts(rt, text, &[(r#"],"computations":["#, 1)]);
    for at in 0..counts {
        push_all(rt, alloc, text, COUNT, at, at.saturating_add(1));
        push_all(rt, alloc, text, READ, 0, reads);
        push_parts(rt, text, &[(r#"],"cuts":["#, 1)]);
        push_all(rt, alloc, text, CUT, 0, if at == 0 { cuts } else { 0 });
        push_parts(rt, text, &[("]}", 1)]);
    }
    push_parts(rt, text, &[("]}", 1)]);
}

// What a weak pass has before its readings.
const WEAK: Numbered = &[
    r#"{"name":"w"#,
    "",
    r#"","kind":"pass","weak":true,"stream":"t"#,
    "",
    r#"","reads":["#,
];

// A reading of a weak pass.
const READ_WEAK: Numbered = &[r#"{"stream":"t"#, "", r#"","by":"key"}"#];

// Appends a reading of the weak pass above the one of this number, or of the injector above the first.
fn push_above(rt: &impl Abort, alloc: Global, text: &mut String, number: u32) {
    match number.checked_sub(1) {
        Some(above) => {
            for part in READ_WEAK {
                if part.is_empty() {
                    push_number(rt, alloc, text, above.saturating_add(100));
                } else {
                    made(rt, text.push_str(part));
                }
            }
        }
        None => push_all(rt, alloc, text, READ, 0, 1),
    }
}

// Appends a weak pass of this number.
fn push_weak(rt: &impl Abort, alloc: Global, text: &mut String, number: u32) {
    push_all(rt, alloc, text, WEAK, number, number.saturating_add(1));
    push_above(rt, alloc, text, number);
    push_parts(rt, text, &[(",", 1)]);
    push_above(rt, alloc, text, number);
    push_parts(rt, text, &[("]}", 1)]);
}

// Appends a file with so many weak passes, and so many readings of the injector beside that of the last one.
fn push_doubled(rt: &impl Abort, alloc: Global, text: &mut String, weaks: u32, more: u32) {
    push_parts(rt, text, &[(r#"{"injectors":["#, 1)]);
    push_all(rt, alloc, text, INJECTOR, 0, 1);
    push_parts(rt, text, &[(r#"],"computations":["#, 1)]);
    for at in 0..weaks {
        push_weak(rt, alloc, text, at);
    }
    push_all(rt, alloc, text, COUNT, weaks, weaks.saturating_add(1));
    push_above(rt, alloc, text, weaks);
    push_all(rt, alloc, text, READ, 1, more.saturating_add(1));
    push_parts(rt, text, &[("]}]}", 1)]);
}

impl Holds for (Source, Option<TopologyRefusal>) {
    // It is read, or refused so. The text is let go before that is looked at.
    fn holds<R: Abort>(&self, rt: &R, alloc: Global) -> bool {
        let (source, why) = self;
        let last = r#""tail"}"#;
        let reading = r#",{"stream":"raw","by":"tail"}"#;
        let text = match source {
            Source::Bytes(bytes) => return refusal_of(read(alloc, bytes)) == *why,
            Source::Nested(depth) => text_of(rt, alloc, &[("[", *depth), ("]", *depth)]),
            Source::Changed(old, new) => changed(rt, alloc, old, new, "", 0),
            Source::Readings(more) => changed(rt, alloc, last, last, reading, *more),
            Source::Sized(numbers) => {
                let mut text = String::new(alloc);
                push_sized(rt, alloc, &mut text, numbers);
                text
            }
            Source::Doubled(weaks, more) => {
                let mut text = String::new(alloc);
                push_doubled(rt, alloc, &mut text, *weaks, *more);
                text
            }
            Source::Long(members, lengths) => long(rt, alloc, members, lengths),
        };
        let topology = read(alloc, text.as_bytes());
        drop(text);
        refusal_of(topology) == *why
    }
}
