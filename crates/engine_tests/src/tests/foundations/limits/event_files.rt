//! The numbers up to which an event file goes.
use crate::tests::foundations::all_hold;
use crate::tests::foundations::event_files::{FourParts, Lines, Source};
use injector::LineWhy;

// A line whose key has as many letters.
const KEY: FourParts = (r#"{"key":""#, "k", "", r#"","ts":1}"#);

// The same, of a letter of two bytes.
const WIDE: FourParts = (r#"{"key":""#, "é", "", r#"","ts":1}"#);

// The same, with its members in another order, which is read by another reader.
const TURNED: FourParts = (r#"{"ts":1,"key":""#, "k", "", r#""}"#);

// A line with as many arrays, one in another, inside its object.
const NESTED: FourParts = (r#"{"key":"k","ts":1,"more":"#, "[", "]", "}");

// As many record lines.
const RECORDS: FourParts = ("", "{\"key\":\"k\",\"ts\":1}\n", "", "");

// One record line behind lines that have none.
const BEHIND: FourParts = (
    "",
    "{\"watermark\":1}\n \t\n\n",
    "",
    r#"{"key":"k","ts":1}"#,
);

// A key has 1 to 256 bytes, a text is nested at most 127 deep, and there are as many record lines as there is room for.
static COUNTED: [Lines; 18] = [
    (Source::Parts(KEY, 0), 1, Some((1, LineWhy::BadKey))),
    (Source::Parts(KEY, 1), 1, None),
    (Source::Parts(KEY, 256), 1, None),
    (Source::Parts(KEY, 257), 1, Some((1, LineWhy::BadKey))),
    (Source::Parts(KEY, 256), 2, None),
    (Source::Parts(KEY, 257), 2, Some((1, LineWhy::BadKey))),
    (Source::Parts(WIDE, 128), 1, None),
    (Source::Parts(WIDE, 129), 1, Some((1, LineWhy::BadKey))),
    (Source::Parts(TURNED, 256), 1, None),
    (Source::Parts(TURNED, 257), 1, Some((1, LineWhy::BadKey))),
    (Source::Parts(NESTED, 126), 1, None),
    (Source::Parts(NESTED, 127), 1, Some((1, LineWhy::NotJson))),
    (Source::Parts(RECORDS, 2), 2, None),
    (
        Source::Parts(RECORDS, 3),
        2,
        Some((3, LineWhy::TooManyLines)),
    ),
    (Source::Parts(RECORDS, 0), 0, None),
    (
        Source::Parts(RECORDS, 1),
        0,
        Some((1, LineWhy::TooManyLines)),
    ),
    (Source::Parts(BEHIND, 3), 1, None),
    (
        Source::Parts(BEHIND, 3),
        0,
        Some((10, LineWhy::TooManyLines)),
    ),
];

// A line whose last part is a number at the end of its range, or beyond it.
static NUMBERS: [Lines; 12] = [
    (Source::Bytes(br#"{"key":"k","ts":0}"#), 1, None),
    (
        Source::Bytes(br#"{"key":"k","ts":4611686018427387904}"#),
        1,
        None,
    ),
    (
        Source::Bytes(br#"{"key":"k","ts":4611686018427387905}"#),
        1,
        Some((1, LineWhy::BadStamp)),
    ),
    (
        Source::Bytes(br#"{"key":"k","ts":-1}"#),
        1,
        Some((1, LineWhy::BadStamp)),
    ),
    (Source::Bytes(br#"{"watermark":0}"#), 1, None),
    (
        Source::Bytes(br#"{"watermark":4611686018427387904}"#),
        1,
        None,
    ),
    (
        Source::Bytes(br#"{"watermark":4611686018427387905}"#),
        1,
        Some((1, LineWhy::BadStamp)),
    ),
    (
        Source::Bytes(br#"{"key":"k","ts":1,"value":-9223372036854775808}"#),
        1,
        None,
    ),
    (
        Source::Bytes(br#"{"key":"k","ts":1,"value":-9223372036854775809}"#),
        1,
        Some((1, LineWhy::BadValue)),
    ),
    (
        Source::Bytes(br#"{"key":"k","ts":1,"value":9223372036854775807}"#),
        1,
        None,
    ),
    (
        Source::Bytes(br#"{"key":"k","ts":1,"value":9223372036854775808}"#),
        1,
        Some((1, LineWhy::BadValue)),
    ),
    (
        Source::Bytes(br#"{"key":"k","ts":1,"value":1.0}"#),
        1,
        Some((1, LineWhy::BadValue)),
    ),
];

#[test]
fn an_event_file_goes_up_to_its_numbers(rt: HostRuntime) {
    all_hold(&rt, rt.alloc(), &COUNTED);
    all_hold(&rt, rt.alloc(), &NUMBERS);
}
