//! A line that stands twice, one that was cut off, and one that differs.
use super::MOST;
use crate::tests::must;
use live_outlet::{CollectRefusal, collect};
use mw_types::Bytes;
use std::alloc::Global;

// The line of a window of two records.
const FIRST: &[u8] =
    b"{\"id\":\"00000000-0000-8000-8000-00000000000b\",\"key\":\"a\",\"stream\":\"windows\",\"ts\":60,\"value\":2}\n";

// The line twice, and one that was cut off.
const TWICE: &str =
    r#"{"id":"00000000-0000-8000-8000-00000000000b","key":"a","stream":"windows","ts":60,"value":2}
{"id":"00000000-0000-8000-8000-00000000000b","key":"a","stream":"windows","ts":60,"value":2}
{"id":"0000"#;

// And then a line that differs.
const DIFFERING: &str =
    r#"{"id":"00000000-0000-8000-8000-00000000000b","key":"a","stream":"windows","ts":60,"value":2}
{"id":"00000000-0000-8000-8000-00000000000b","key":"a","stream":"windows","ts":60,"value":2}
{"id":"0000
{"id":"00000000-0000-8000-8000-00000000000b","key":"a","stream":"windows","ts":60,"value":3}
"#;

// What a text collects to: whether the lines are those that are wanted, and how many others there are; or which line
// differs from which.
pub(super) type Collected = (bool, u32, u32, u32);

// Whether these are the lines of a text, without their LF.
fn are_lines(lines: &[Bytes], want: &[u8]) -> bool {
    let mut rest = want;
    for line in lines {
        let line = line.as_slice();
        if rest.len() <= line.len() || &rest[..line.len()] != line || rest[line.len()] != b'\n' {
            return false;
        }
        rest = &rest[line.len() + 1..];
    }
    rest.is_empty()
}

// What a text collects to, where these lines are wanted.
pub(super) fn collected(alloc: Global, text: &[u8], want: &[u8]) -> Collected {
    if text.len() >= MOST {
        return (false, 0, 0, 0);
    }
    let collected = collect(alloc, text);
    let told = match &collected {
        Ok(all) => (are_lines(all.lines.as_slice(), want), all.other, 0, 0),
        Err(CollectRefusal::Differs { line, first }) => (false, 0, *line, *first),
        Err(CollectRefusal::NoMemory) => (false, 0, 0, 0),
    };
    drop(collected);
    told
}

// The two texts, and what they collect to.
static TEXTS: [(&str, Collected); 2] = [(TWICE, (true, 1, 0, 0)), (DIFFERING, (false, 0, 4, 1))];

#[test]
fn collect_once(rt: HostRuntime) {
    for (text, want) in &TEXTS {
        let told = collected(rt.alloc(), text.as_bytes(), FIRST);
        must(&rt, told == *want, *text);
    }
}
