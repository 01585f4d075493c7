//! How much a sender's row has pending while workers run: what it made is acknowledged as fast as it makes more.
use super::Files;
use crate::tests::calls::{keeper, sink};
use crate::tests::looks::Look;
use crate::tests::must_hold;
use crate::tests::threads::seen_at;
use mw_ports::OpenGate;
use std::alloc::Global;
use std::process::Abort;
use std::sync::Wait;
use std::thread::Threads;

// Three injectors, a count of all that they inject in one interval, and one in twelve.
const THREE: &str =
    r#"{"injectors":[{"name":"one","stream":"a"},{"name":"two","stream":"b"},{"name":"three","stream":"c"}],"computations":[{"name":"whole","kind":"count","size":600,"reads":[{"stream":"a","by":"key"},{"stream":"b","by":"key"},{"stream":"c","by":"key"}],"stream":"minutes"},{"name":"cut","kind":"count","size":6000,"reads":[{"stream":"a","by":"key"},{"stream":"b","by":"key"},{"stream":"c","by":"key"}],"stream":"hours","cuts":["c","e","g","i","k","m","o","q","s","u","w"]}]}"#;

// Each injector has as many lines as it injects in two hundred rounds, each of which makes two records.
const FILES: Files<'static> = (THREE, b"", 3200);

// Sixteen workers, one for each interval.
const LINE: &str = "run --workers 16 --rounds 200 --history t.json e e e";

// An injector makes 32 records a round, which are handled in the next round and acknowledged in the one behind it. So
// it has those of two rounds pending, and of a third where a worker is late.
const MOST: u64 = 160;

// How the lines of an injection and of an acknowledgement begin in a printed history.
const INJECTION: &str = "{\"do\":\"inject\",";

const WORD: &str = "{\"do\":\"ack\",";

// The senders, as their entries name them.
static SENDERS: [&str; 3] = [",\"part\":0,", ",\"part\":1,", ",\"part\":2,"];

// How many records a sender has pending at most in a printed history.
fn most_pending(text: &str, sender: &str) -> u64 {
    let (mut now, mut most) = (0u64, 0u64);
    for line in text.split('\n') {
        if line.contains(sender) {
            if line.starts_with(INJECTION) {
                now = now.saturating_add(2);
                most = most.max(now);
            } else if line.starts_with(WORD) {
                now = now.saturating_sub(1);
            }
        }
    }
    most
}

// Whether each sender has what one line makes pending at least, and never more than it may.
fn all_few(text: &str) -> bool {
    let mut are = true;
    for sender in &SENDERS {
        let most = most_pending(text, *sender);
        are = are && 2 <= most && most <= MOST;
    }
    are
}

// The same of bytes.
fn are_few(text: &[u8]) -> bool {
    match str::from_utf8(text) {
        Ok(text) => all_few(text),
        Err(_) => false,
    }
}

// Whether no sender has more pending in the run.
fn stay_few<R: Threads + Wait + Abort + Sync>(rt: &R, alloc: Global) -> bool {
    let mut out = sink(alloc);
    let (keeper, gate, look) = (keeper(rt, alloc, &[]), &OpenGate, Look::Ends);
    let is_ok = seen_at(rt, alloc, LINE, FILES, keeper, &mut out, gate, look);
    let is_so = is_ok && are_few(out.text());
    drop(out);
    is_so
}

#[test]
fn senders_have_few_records_pending(rt: HostRuntime) {
    must_hold(&rt, stay_few(&rt, rt.alloc()), "sixteen workers");
}
