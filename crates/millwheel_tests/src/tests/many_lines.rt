//! A thousand record lines over a hundred keys and twenty windows, against a count by an array.
use super::calls::{Fault, SOLO};
use super::events::push;
use super::looks::{Look, seen};
use super::topologies::COUNT;
use super::{made, must_hold};
use std::alloc::Global;
use std::process::Abort;

// The key and the timestamp of a line, which three and four lines in a row share.
fn line_at(line: u32) -> (u32, u32) {
    (line / 3 % 100 * 37 % 100, line / 4 % 1200 * 61 % 1200)
}

// The event file of so many lines.
fn event_file(rt: &impl Abort, alloc: Global, lines: u32) -> String {
    let mut text = String::new(alloc);
    push_events(rt, alloc, &mut text, lines);
    text
}

// Appends so many lines.
fn push_events(rt: &impl Abort, alloc: Global, text: &mut String, lines: u32) {
    for line in 0..lines {
        let (key, stamp) = line_at(line);
        let event = format!(in alloc; "{{\"key\":\"k{key:02}\",\"ts\":{stamp}}}\n");
        push(rt, text, made(rt, event));
    }
}

// Counts how many of these lines each window has of each key: the hundred keys of the first, and so on.
fn count(counts: &mut [u32], lines: u32) {
    for line in 0..lines {
        let (key, stamp) = line_at(line);
        let cell = (stamp / 60).saturating_mul(100).saturating_add(key);
        if let Some(count) = counts.get_mut(cell as usize) {
            *count = count.saturating_add(1);
        }
    }
}

// Appends the text of these counts: a line for each that is not 0, and the summary.
fn push_text(rt: &impl Abort, alloc: Global, text: &mut String, counts: &[u32], lines: u32) {
    let mut fired = 0u32;
    for cell in 0..2000u32 {
        let count = counts.get(cell as usize).copied().unwrap_or(0);
        if count > 0 {
            let (key, window) = (cell % 100, cell / 100);
            let end = window.saturating_add(1).saturating_mul(60);
            let line = format!(in alloc;
                "{{\"key\":\"k{key:02}\",\"stream\":\"windows\",\"ts\":{end},\"value\":{count}}}\n"
            );
            push(rt, text, made(rt, line));
            fired = fired.saturating_add(1);
        }
    }
    let summary = format!(in alloc;
        "{{\"fired\":{fired},\"handled\":{lines},\"injected\":{lines},\"late\":0}}\n"
    );
    push(rt, text, made(rt, summary));
}

// The text that is wanted of so many lines.
fn wanted(rt: &impl Abort, alloc: Global, lines: u32) -> String {
    let mut counts = made(rt, vec![in alloc; 0u32; 2000]);
    count(&mut counts, lines);
    let mut text = String::new(alloc);
    push_text(rt, alloc, &mut text, counts.as_slice(), lines);
    drop(counts);
    text
}

// Whether the whole text of so many lines is as the array has it.
fn are_counted(rt: &impl Abort, alloc: Global, lines: u32) -> bool {
    let events = event_file(rt, alloc, lines);
    let text = wanted(rt, alloc, lines);
    let files = [("t.json", COUNT), ("e", events.as_str())];
    let look = Look::Writes(text.as_str());
    let is_so = seen(rt, alloc, SOLO, &files, Fault::Never, look);
    drop(text);
    drop(events);
    is_so
}

#[test]
fn a_thousand_lines_are_counted(rt: HostRuntime) {
    must_hold(&rt, are_counted(&rt, rt.alloc(), 1000), "a thousand lines");
}
