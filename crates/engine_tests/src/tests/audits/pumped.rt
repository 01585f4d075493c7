//! The windows of a first run as they are pumped: at once, and by a sink that fails at each call in
//! turn. No row owns anything, and one case serves all.
ghost use Rattle.std.specs.Prelude.{◌≡◌, ◌≤◌, All, IfOk, length};
ghost use Rattle.mw_types.specs.declared.TheConstants.{MAX_STAMP};
ghost use Rattle.mw_types.specs.declared.record.Production.{Production as Produced};
ghost use Rattle.topology.specs.Samples.{one_count};
ghost use Rattle.run_history.specs.Made.{productions_of};
ghost use Rattle.run_history.specs.Printing.{IsOnPart, IsPrintable};

use super::collected::collected;
use crate::tests::two_lines::two_line_case;
use crate::tests::{made, must};
use live_outlet::Outlet;
use mw_ports::MemSink;
use mw_types::{
    CallList, Effects, Entry, Key, NoMemory, Production, ProductionList, Record, RecordId, RowName,
    Seq, State, Timer,
};
use run_history::{Case, History};
use std::alloc::Global;
use std::process::Abort;

// The lines of the two windows, which the entries 11 and 12 close.
const LINES: &[u8] =
    b"{\"id\":\"00000000-0000-8000-8000-00000000000b\",\"key\":\"a\",\"stream\":\"windows\",\"ts\":60,\"value\":2}\n{\"id\":\"00000000-0000-8000-8000-00000000000c\",\"key\":\"a\",\"stream\":\"windows\",\"ts\":120,\"value\":1}\n";

// How many entries the history has.
const ENTRIES: u32 = 13;

// The key a.
fn key(alloc: Global) -> Result<Key, NoMemory> {
    match Key::of(alloc, "a") {
        Ok(key) => Ok(key),
        Err(_) => Err(NoMemory),
    }
}

// The row of the key a of the count.
fn count_row(alloc: Global) -> Result<RowName, NoMemory>
    ensures { IfOk result (λ row. row.part ≡ 1) }
{
    Ok(RowName {
        part: 1,
        key: key(alloc)?,
    })
}

// What a handler left that produced these. Its state is of no matter here.
fn effects(alloc: Global, productions: ProductionList) -> Effects
    requires stamps { All (λ (p : Produced). p.stamp ≤ MAX_STAMP) productions }
    ensures produced { result.productions ≡ productions }
{
    Effects {
        state: State::Pass { late: 0 },
        timers: Seq::new(alloc),
        productions,
    }
}

// The record of this time is injected.
fn injected(alloc: Global, line: u32, stamp: u64) -> Result<Entry, NoMemory>
    ensures part { IfOk result (IsOnPart (one_count 60)) }
    ensures few { IfOk result (λ entry. length (productions_of entry) ≤ 8) }
{
    Ok(Entry::Inject {
        seq: 0,
        part: 0,
        line,
        item: Record {
            key: key(alloc)?,
            stamp,
            value: 1,
            late: false,
        },
    })
}

// The record that this entry made is handled.
fn handled(alloc: Global, commit: u64) -> Result<Entry, NoMemory>
    ensures part { IfOk result (IsOnPart (one_count 60)) }
    ensures few { IfOk result (λ entry. length (productions_of entry) ≤ 8) }
{
    Ok(Entry::Handle {
        seq: 1,
        row: count_row(alloc)?,
        id: RecordId { commit, index: 0 },
        effects: effects(alloc, Seq::new(alloc)),
    })
}

// The injector's row learns that it was.
fn acknowledged(alloc: Global, commit: u64) -> Entry
    ensures part { IsOnPart (one_count 60) result }
    ensures few { length (productions_of result) ≤ 8 }
{
    Entry::Ack {
        seq: 0,
        row: RowName {
            part: 0,
            key: Key::none(alloc),
        },
        id: RecordId { commit, index: 0 },
    }
}

// What the count of a window is, as it is produced.
fn count(alloc: Global, stamp: u32, value: i64) -> Result<ProductionList, NoMemory>
    ensures few { IfOk result (λ all. length all ≤ 8) }
    ensures stamps { IfOk result (All (λ (p : Produced). p.stamp ≤ MAX_STAMP)) }
{
    let mut productions = Seq::new(alloc);
    productions.push(Production {
        key: key(alloc)?,
        stamp: u64::from(stamp),
        value,
    })?;
    Ok(productions)
}

// The window that ends at this time is closed.
fn fired(alloc: Global, time: u32, value: i64) -> Result<Entry, NoMemory>
    ensures part { IfOk result (IsOnPart (one_count 60)) }
    ensures few { IfOk result (λ entry. length (productions_of entry) ≤ 8) }
{
    let productions = count(alloc, time, value)?;
    Ok(Entry::Fire {
        seq: 1,
        row: count_row(alloc)?,
        timer: Timer {
            tag: 0,
            time: u64::from(time),
            late: false,
        },
        mark: u64::from(time),
        effects: effects(alloc, productions),
    })
}

// The entry of this number.
fn entry(alloc: Global, n: u32) -> Result<Entry, NoMemory>
    ensures part { IfOk result (IsOnPart (one_count 60)) }
    ensures few { IfOk result (λ entry. length (productions_of entry) ≤ 8) }
{
    match n {
        0 | 1 => Ok(Entry::Claim {
            worker: 0,
            interval: n,
        }),
        2 => injected(alloc, 0, 10),
        3 => handled(alloc, 2),
        4 => Ok(acknowledged(alloc, 2)),
        5 => injected(alloc, 1, 59),
        6 => handled(alloc, 5),
        7 => Ok(acknowledged(alloc, 5)),
        8 => injected(alloc, 2, 60),
        9 => handled(alloc, 8),
        10 => Ok(acknowledged(alloc, 8)),
        11 => fired(alloc, 60, 2),
        _ => fired(alloc, 120, 1),
    }
}

// The history of the first run.
fn history(alloc: Global) -> Result<History, NoMemory>
    ensures { IfOk result (IsPrintable (one_count 60)) }
{
    let mut history = History::new(alloc);
    for n in 0..ENTRIES {
        history.push(entry(alloc, n)?)?;
    }
    Ok(history)
}

// At which call the sink fails, and how many lines of the text are then cut off: a line takes 12
// calls, and one that fails before the first byte of a line cuts nothing.
const CALLS: &[(u64, u32)] = &[
    (0, 0),
    (1, 1),
    (2, 1),
    (3, 1),
    (4, 1),
    (5, 1),
    (6, 1),
    (7, 1),
    (8, 1),
    (9, 1),
    (10, 1),
    (11, 1),
    (12, 0),
    (13, 1),
    (14, 1),
    (15, 1),
    (16, 1),
    (17, 1),
    (18, 1),
    (19, 1),
    (20, 1),
    (21, 1),
    (22, 1),
    (23, 1),
    (24, 0),
];

// The history is pumped, and once more where the sink failed; first all is written again where the
// outlet goes back.
fn pump(
    rt: &impl Abort,
    alloc: Global,
    case: &Case,
    history: &History,
    goes_back: bool,
    out: &mut MemSink,
)
    requires { IsPrintable case.now.topology history.now }
{
    let mut outlet = Outlet::new(alloc);
    if outlet.pump(alloc, case, history, out).is_err() {
        if goes_back {
            outlet.back(alloc);
        }
        made(rt, outlet.pump(alloc, case, history, out));
    }
    drop(outlet);
}

// The sink that takes 8 bytes a call and fails at this one, once all is pumped into it.
fn sink_after(
    rt: &impl Abort,
    alloc: Global,
    case: &Case,
    history: &History,
    goes_back: bool,
    call: u64,
) -> MemSink
    requires { IsPrintable case.now.topology history.now }
{
    let mut failing = CallList::new(alloc);
    made(rt, failing.push(call));
    let mut out = MemSink::of(alloc, 8, failing, CallList::new(alloc));
    pump(rt, alloc, case, history, goes_back, &mut out);
    out
}

// Whether the text collects to the two lines, beside so many others, where the sink fails at this call.
fn collects_after(
    rt: &impl Abort,
    alloc: Global,
    case: &Case,
    history: &History,
    goes_back: bool,
    call: u64,
    others: u32,
) -> bool
    requires { IsPrintable case.now.topology history.now }
{
    let out = sink_after(rt, alloc, case, history, goes_back, call);
    let told = collected(alloc, out.text(), LINES);
    drop(out);
    told == (true, others, 0, 0)
}

// Whether it does so for each call.
fn each_collects(
    rt: &impl Abort,
    alloc: Global,
    case: &Case,
    history: &History,
    goes_back: bool,
) -> bool
    requires { IsPrintable case.now.topology history.now }
{
    for (call, others) in CALLS {
        if !collects_after(rt, alloc, case, history, goes_back, *call, *others) {
            return false;
        }
    }
    true
}

// Whether the two lines are written as they are, by a sink that does not fail.
fn is_written(rt: &impl Abort, alloc: Global, case: &Case, history: &History) -> bool
    requires { IsPrintable case.now.topology history.now }
{
    let out = sink_after(rt, alloc, case, history, false, u64::MAX);
    let is = out.text() == LINES;
    drop(out);
    is
}

// What is shown of the history.
enum Shown {
    // Its lines are written.
    Written,
    // They are collected once it was pumped again, and first taken back or not.
    Again(bool),
}

// Whether it is so, with a case of its topology, whose event file is of no matter here.
fn holds(rt: &impl Abort, alloc: Global, shown: &Shown) -> bool {
    let case = two_line_case(rt, alloc);
    let history = made(rt, history(alloc));
    let holds = match shown {
        Shown::Written => is_written(rt, alloc, &case, &history),
        Shown::Again(goes_back) => each_collects(rt, alloc, &case, &history, *goes_back),
    };
    drop(history);
    drop(case);
    holds
}

#[test]
fn live_ids(rt: HostRuntime) {
    must(
        &rt,
        holds(&rt, rt.alloc(), &Shown::Written),
        "the two lines",
    );
}

#[test]
fn a_text_that_was_cut_at_each_call_in_turn_collects_to_all(rt: HostRuntime) {
    for (name, shown) in &[
        ("pumped again", Shown::Again(false)),
        ("taken back and pumped again", Shown::Again(true)),
    ] {
        must(&rt, holds(&rt, rt.alloc(), shown), *name);
    }
}
