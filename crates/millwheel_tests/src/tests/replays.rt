//! Plans whose steps are done before the drain.
use super::calls::{Fault, REPLAY};
use super::events::EVENTS;
use super::looks::{Look, seen};
use super::must_hold;
use super::topologies::COUNT;
use std::alloc::Global;
use std::process::Abort;

/// The second worker claims the row while the first has its record prepared, whose write is then stale.
pub const OLD_OWNER: &str = "claim 0 0
claim 0 1
inject 0 0
send 0
take 0 0
claim 1 1
write 0
resend 0
send 0
take 1 1
write 1
send 1
take 0 2
";

// The copy of a record comes when its row has forgotten its id.
const LATE_COPY: &str = "claim 0 0
claim 0 1
inject 0 0
send 0
copy 0
take 0 0
write 0
send 0
take 0 2
purge 0 1
take 0 1
";

// A worker crashes once it has written a line and before it sends its record.
const UNSENT: &str = "claim 0 0
claim 0 1
inject 0 0
crash 0
claim 1 0
resend 1
send 1
claim 1 1
take 1 0
write 1
";

// A worker crashes once it has prepared a record and before it writes.
const UNWRITTEN: &str = "claim 0 0
claim 0 1
inject 0 0
send 0
take 0 0
crash 0
";

/// What is written of the first example, 145 bytes.
pub const TEXT: &str = r#"{"key":"a","stream":"windows","ts":60,"value":2}
{"key":"a","stream":"windows","ts":120,"value":1}
{"fired":2,"handled":3,"injected":3,"late":0}
"#;

/// A call with a plan over the first example: its name, its line, its plan, and what is asked of it.
pub type Planned<'a> = (&'a str, &'a str, &'a str, Look<'a>);

/// Ends the test where such a call is not so, and names it.
pub(super) fn all_are_planned(rt: &impl Abort, alloc: Global, calls: &[Planned<'_>]) {
    for (name, line, plan, look) in calls {
        let files = [("t.json", COUNT), ("p", *plan), ("e", EVENTS)];
        let is_so = seen(rt, alloc, line, &files, Fault::Never, *look);
        must_hold(rt, is_so, *name);
    }
}

// Plans after which the first example's text is written, and how many entries there are. After the old owner's plan, of
// six entries, the drain claims twice, writes three entries for each of two records and one for each of two timers, and
// purges once.
static REPLAYS: [Planned<'static>; 4] = [
    (
        "old owner is stale",
        REPLAY,
        OLD_OWNER,
        Look::Runs(TEXT, 17),
    ),
    ("late copy", REPLAY, LATE_COPY, Look::Runs(TEXT, 17)),
    (
        "crash between write and send",
        REPLAY,
        UNSENT,
        Look::Runs(TEXT, 18),
    ),
    (
        "crash before write",
        REPLAY,
        UNWRITTEN,
        Look::Runs(TEXT, 16),
    ),
];

#[test]
fn a_crash_or_an_old_owner_changes_no_text(rt: HostRuntime) {
    all_are_planned(&rt, rt.alloc(), &REPLAYS);
}
