//! What event files hold, by example.
use super::{Holds, all_hold, each_holds, key_of, made, must, refusal_of, text_of};
use injector::{Item, Items, LineWhy, LinesRefusal, read_lines};
use mw_types::END;
use std::alloc::Global;
use std::process::Abort;

// What these bytes hold, with room for so many record lines.
fn read(alloc: Global, bytes: &[u8], room: u32) -> Result<Items, LinesRefusal> {
    if bytes.len() > 1 << 20 {
        return Err(LinesRefusal::NoMemory);
    }
    read_lines(alloc, bytes, room)
}

// The key, timestamp and value of a record, and whether it is late.
type Told = (&'static str, u64, i64, bool);

// Whether there are these records, and these watermarks before each and after the last.
fn are_told(items: &Items, records: &[Told], marks: &[u64]) -> bool {
    let mut at = 0u32;
    for (key, stamp, value, late) in records {
        if at >= items.count() {
            return false;
        }
        let item = items.at(at);
        if item.record_key.text() != *key || item.stamp != *stamp {
            return false;
        }
        if item.value != *value || item.late != *late {
            return false;
        }
        at = at.saturating_add(1);
    }
    if at != items.count() {
        return false;
    }
    let mut at = 0u32;
    for mark in marks {
        if items.stated(at) != *mark {
            return false;
        }
        at = at.saturating_add(1);
    }
    true
}

// A file, the records that it has, and the watermarks before each and after the last.
type File = (&'static [u8], &'static [Told], &'static [u64]);

// One record that is spelt in many ways.
const SPELT: [Told; 1] = [("é/a", 50, 1, false)];

static FILES: [(&str, File); 8] = [
    ("an empty file has ended", (b"", &[], &[END])),
    (
        "a record at the watermark is in time",
        (
            b"{\"key\":\"a\",\"ts\":3}\r\n \t\r\n{\"watermark\":7,\"ts\":null}\n{\"watermark\":4}\n{\"ts\":7,\"value\":-2,\"key\":\"b\"}",
            &[("a", 3, 1, false), ("b", 7, -2, false)],
            &[0, 7, END],
        ),
    ),
    (
        "a record below the watermark is late",
        (
            b"{\"watermark\":7}\n{\"key\":\"a\",\"ts\":6}\n{\"watermark\":9}\n",
            &[("a", 6, 1, true)],
            &[7, END],
        ),
    ),
    (
        "the greatest numbers are read",
        (
            b"{\"watermark\":4611686018427387904}
{\"key\":\"a\",\"ts\":4611686018427387904,\"value\":9223372036854775807}
{\"key\":\"a\",\"ts\":0,\"value\":-9223372036854775808}",
            &[
                ("a", 4611686018427387904, 9223372036854775807, false),
                ("a", 0, -9223372036854775808, true),
            ],
            &[4611686018427387904, 4611686018427387904, END],
        ),
    ),
    (
        "a record is spelt in bytes",
        (b"{\"key\":\"\xc3\xa9/a\",\"ts\":50}", &SPELT, &[0, END]),
    ),
    (
        "a record is spelt with escapes",
        (b"{\"key\":\"\\u00e9\\/a\",\"ts\":50}", &SPELT, &[0, END]),
    ),
    (
        "a record is spelt with blanks and a carriage return",
        (
            b" { \"ts\" : 50 , \"key\" : \"\xc3\xa9/a\" }\r",
            &SPELT,
            &[0, END],
        ),
    ),
    (
        "a record is spelt with two keys and another member",
        (
            b"{\"key\":\"b\",\"key\":\"\xc3\xa9/a\",\"ts\":50,\"more\":[{}]}",
            &SPELT,
            &[0, END],
        ),
    ),
];

impl Holds for File {
    fn holds<R: Abort>(&self, rt: &R, alloc: Global) -> bool {
        let (text, records, marks) = self;
        let items = made(rt, read(alloc, text, 2));
        let are_told = are_told(&items, records, marks);
        drop(items);
        are_told
    }
}

#[test]
fn files_hold_their_records_and_watermarks(rt: HostRuntime) {
    let alloc = rt.alloc();
    each_holds(&rt, alloc, &FILES);
    let item = Item {
        record_key: key_of(&rt, alloc, "a"),
        stamp: 5,
        value: 1,
        late: false,
    };
    let mut items = Items::new(alloc);
    made(&rt, items.push(item, 0));
    let is_held = are_told(&items, &[("a", 5, 1, false)], &[0, END]);
    drop(items);
    must(&rt, is_held, "a line that is pushed is held");
}

/// The four parts of a text.
pub(super) type FourParts = (&'static str, &'static str, &'static str, &'static str);

/// What is read.
pub(super) enum Source {
    /// These bytes.
    Bytes(&'static [u8]),
    /// A first part, one that stands so many times, one that stands as many times behind it, and a last part.
    Parts(FourParts, u32),
}

/// Lines, the room for record lines, and the first rule that a line breaks, if one does, with its number.
pub(super) type Lines = (Source, u32, Option<(u32, LineWhy)>);

static READ: [Lines; 20] = [
    (
        Source::Bytes(b"{\"key\":\"\xff\",\"ts\":1}"),
        2,
        Some((1, LineWhy::NotJson)),
    ),
    (Source::Bytes(b"\r\r\n"), 2, Some((1, LineWhy::NotJson))),
    (
        Source::Bytes(b"{\"key\":\"a\",\"ts\":05}"),
        2,
        Some((1, LineWhy::NotJson)),
    ),
    (
        Source::Bytes(b"{\"key\":\"a\\\",\"ts\":5}"),
        2,
        Some((1, LineWhy::NotJson)),
    ),
    (Source::Bytes(b"[1]"), 2, Some((1, LineWhy::NotObject))),
    (Source::Bytes(b"{\"ts\":1}"), 2, Some((1, LineWhy::BadKey))),
    (
        Source::Bytes(b"{\"key\":7,\"ts\":-1}"),
        2,
        Some((1, LineWhy::BadKey)),
    ),
    (
        Source::Bytes(b"{\"key\":\"\",\"ts\":1}"),
        2,
        Some((1, LineWhy::BadKey)),
    ),
    (
        Source::Bytes(b"{\"key\":\"a\",\"value\":null}"),
        2,
        Some((1, LineWhy::BadStamp)),
    ),
    (
        Source::Bytes(b"{\"key\":\"a\",\"ts\":4611686018427387905}"),
        2,
        Some((1, LineWhy::BadStamp)),
    ),
    (
        Source::Bytes(b"{\"key\":\"a\",\"ts\":-0}"),
        2,
        Some((1, LineWhy::BadStamp)),
    ),
    (
        Source::Bytes(b"{\"watermark\":4611686018427387905}"),
        2,
        Some((1, LineWhy::BadStamp)),
    ),
    (
        Source::Bytes(b"{\"watermark\":null,\"key\":7}"),
        2,
        Some((1, LineWhy::BadStamp)),
    ),
    (
        Source::Bytes(b"{\"key\":\"a\",\"ts\":1,\"value\":null}"),
        2,
        Some((1, LineWhy::BadValue)),
    ),
    (
        Source::Bytes(b"{\"key\":\"a\",\"ts\":1,\"value\":1.0}"),
        2,
        Some((1, LineWhy::BadValue)),
    ),
    (
        Source::Bytes(b"{\"key\":\"a\",\"ts\":1,\"value\":-0}"),
        2,
        Some((1, LineWhy::BadValue)),
    ),
    (
        Source::Bytes(b"{\"key\":\"a\",\"ts\":1,\"value\":9223372036854775808}"),
        2,
        Some((1, LineWhy::BadValue)),
    ),
    (
        Source::Bytes(b"{\"key\":\"a\",\"ts\":1,\"value\":-9223372036854775809}"),
        2,
        Some((1, LineWhy::BadValue)),
    ),
    (
        Source::Bytes(b"{\"key\":\"a\",\"ts\":1}\n{\"key\":\"a\",\"ts\""),
        2,
        Some((2, LineWhy::NotJson)),
    ),
    (
        Source::Bytes(
            b"{\"key\":\"a\",\"ts\":1}\n{\"key\":\"a\",\"ts\":2}\n{\"watermark\":1}\n{\"key\":\"a\",\"ts\":3}",
        ),
        2,
        Some((4, LineWhy::TooManyLines)),
    ),
];

impl Holds for Lines {
    // A text is let go before it is looked at what was read.
    fn holds<R: Abort>(&self, rt: &R, alloc: Global) -> bool {
        let (source, room, why) = self;
        let refusal = match source {
            Source::Bytes(bytes) => refusal_of(read(alloc, bytes, *room)),
            Source::Parts((first, second, third, last), times) => {
                let parts = [(*first, 1), (*second, *times), (*third, *times), (*last, 1)];
                let text = text_of(rt, alloc, &parts);
                let items = read(alloc, text.as_bytes(), *room);
                drop(text);
                refusal_of(items)
            }
        };
        match refusal {
            Some(LinesRefusal::Line { line, why: broken }) => *why == Some((line, broken)),
            Some(LinesRefusal::NoMemory) => false,
            None => why.is_none(),
        }
    }
}

#[test]
fn the_first_rule_that_a_line_breaks_is_named(rt: HostRuntime) {
    all_hold(&rt, rt.alloc(), &READ);
}
