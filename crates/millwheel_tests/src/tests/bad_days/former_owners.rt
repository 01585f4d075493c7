//! What owners that were overtaken may still do, and a keeper that fails and is asked again.
use super::overtaken::{SCRIPTS, sides};
use super::worlds::do_all;
use crate::tests::calls::{REPLAY, keeper};
use crate::tests::looks::Look;
use crate::tests::made;
use crate::tests::replays::{TEXT, all_are_planned};
use std::alloc::Global;
use std::process::Abort;

#[test]
fn former_owners_are_stale_and_work_survives_a_keeper_fault(rt: HostRuntime) {
    let alloc = rt.alloc();
    for (name, failing, script) in &SCRIPTS {
        do_all(&rt, alloc, keeper(&rt, alloc, failing), name, script);
    }
}

// The steps of a script, each on a line of its own, as a plan.
fn plan(rt: &impl Abort, alloc: Global, script: &str) -> String {
    let mut plan = String::new(alloc);
    for line in script.split('\n') {
        let (asked, _) = sides(line);
        if asked != "drain" && asked != "last" {
            made(rt, plan.push_str(asked));
            made(rt, plan.push_str("\n"));
        }
    }
    plan
}

// Ends the test where a replay of the steps of a script does not write the text of the first example, and names it.
fn must_replay(rt: &impl Abort, alloc: Global, name: &'static str, script: &str) {
    let plan = plan(rt, alloc, script);
    let call = (name, REPLAY, plan.as_str(), Look::Writes(TEXT));
    all_are_planned(rt, alloc, &[call]);
    drop(plan);
}

#[test]
fn former_owners_change_no_text(rt: HostRuntime) {
    for (name, _, script) in &SCRIPTS {
        must_replay(&rt, rt.alloc(), name, script);
    }
}
