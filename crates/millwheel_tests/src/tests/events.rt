//! The event files of the tests.
use super::made;
use std::alloc::Global;
use std::process::Abort;

/// Two records in the window that ends at 60, and one in the next.
pub const EVENTS: &str = r#"{"key":"a","ts":10}
{"key":"a","ts":59}
{"key":"a","ts":60}
"#;

/// Appends a text, which is handed over.
pub(super) fn push(rt: &impl Abort, all: &mut String, text: String) {
    made(rt, all.push_str(text.as_str()));
    drop(text);
}

/// A thousand records of four heads and ten tails, each at the timestamp of its number, with a watermark after each
/// fifty and a blank line after each hundred.
pub(super) fn heads(rt: &impl Abort, alloc: Global) -> String {
    let mut events = String::new(alloc);
    push_heads(rt, alloc, &mut events);
    events
}

// Appends them.
fn push_heads(rt: &impl Abort, alloc: Global, events: &mut String) {
    for line in 0..1000u32 {
        let (head, tail, next) = (line % 4, line % 10, line + 1);
        let event = format!(in alloc;
            "{{\"key\":\"h{head}/p{tail}\",\"ts\":{line},\"agent\":\"x\"}}\r\n"
        );
        push(rt, events, made(rt, event));
        if next % 50 == 0 {
            let mark = format!(in alloc; "{{\"watermark\":{next}}}\n");
            push(rt, events, made(rt, mark));
        }
        if next % 100 == 0 {
            made(rt, events.push_str("\n"));
        }
    }
}
