//! The worked examples as tables of choices.
use crate::tests::text_cases::{COUNT, RECORDS, case};
use crate::tests::{made, must};
use audit::Standing;
use mw_types::{Entry, Key, RecordId, RowName};
use run_history::Case;
use std::alloc::Global;
use std::process::Abort;
use trace_lines::Choice;

// What a test chooses; rows are named by part and key.
#[derive(Drop)]
enum Chosen {
    Claim(u32, u32),
    Inject(u32),
    Handle(u64),
    Fire(u32, &'static str, u64),
    Ack(u32, &'static str, u64),
    Purge(u32, &'static str, u64),
}

// What is asked behind choices.
#[derive(Drop)]
enum Asked {
    // There are so many entries, and whether no work is left.
    Told(usize, bool),
    // No lawful entry has this choice.
    Lawless(Chosen),
    // The line that this choice injects has this sequencer.
    Under(u64, Chosen),
}

// How many of the choices are made, and what is asked behind them.
type Row = (usize, Asked);

// The example of three records, with claims, acknowledgements and a purge.
static DRAINED: [Chosen; 14] = [
    Chosen::Claim(0, 0),
    Chosen::Claim(0, 1),
    Chosen::Inject(0),
    Chosen::Handle(2),
    Chosen::Ack(0, "", 2),
    Chosen::Inject(0),
    Chosen::Handle(5),
    Chosen::Ack(0, "", 5),
    Chosen::Inject(0),
    Chosen::Handle(8),
    Chosen::Ack(0, "", 8),
    Chosen::Fire(1, "a", 60),
    Chosen::Fire(1, "a", 120),
    Chosen::Purge(1, "a", 13),
];

// After so many entries of the example no lawful entry has the choice.
static LAWLESS: [Row; 14] = [
    (0, Asked::Lawless(Chosen::Inject(0))),
    (2, Asked::Lawless(Chosen::Claim(16, 0))),
    (2, Asked::Lawless(Chosen::Claim(0, 2))),
    (2, Asked::Lawless(Chosen::Inject(1))),
    (3, Asked::Lawless(Chosen::Handle(3))),
    (3, Asked::Lawless(Chosen::Ack(0, "", 2))),
    (4, Asked::Lawless(Chosen::Handle(2))),
    (5, Asked::Lawless(Chosen::Ack(0, "", 2))),
    (7, Asked::Lawless(Chosen::Fire(1, "a", 60))),
    (11, Asked::Lawless(Chosen::Fire(1, "a", 59))),
    (11, Asked::Lawless(Chosen::Inject(0))),
    (12, Asked::Lawless(Chosen::Fire(0, "", 60))),
    (13, Asked::Lawless(Chosen::Purge(1, "a", 14))),
    (14, Asked::Lawless(Chosen::Purge(1, "a", 13))),
];

// All choices of the example are made.
static WHOLE: [Row; 1] = [(14, Asked::Told(14, true))];

// The last timer and the purge are not.
static BEFORE_THE_TIMER: [Row; 1] = [(12, Asked::Told(12, false))];

// The claims of both intervals, and of the injector's by another worker.
static CLAIMED_AGAIN: [Chosen; 3] = [
    Chosen::Claim(0, 0),
    Chosen::Claim(0, 1),
    Chosen::Claim(1, 0),
];

// The next line is injected under the last of them.
static LATER: [Row; 1] = [(3, Asked::Under(2, Chosen::Inject(0)))];

// A row, whose key may be empty.
fn row(rt: &impl Abort, alloc: Global, part: u32, text: &str) -> RowName {
    let key = if text.is_empty() {
        Key::none(alloc)
    } else {
        made(rt, Key::of(alloc, text))
    };
    RowName { part, key }
}

// The choice. Each id is of the one delivery that an entry made.
fn choice(rt: &impl Abort, alloc: Global, chosen: &Chosen) -> Choice {
    match chosen {
        Chosen::Claim(worker, interval) => Choice::Claim {
            worker: *worker,
            interval: *interval,
        },
        Chosen::Inject(part) => Choice::Inject { part: *part },
        Chosen::Handle(commit) => Choice::Handle {
            id: RecordId {
                commit: *commit,
                index: 0,
            },
        },
        Chosen::Fire(part, text, mark) => Choice::Fire {
            row: row(rt, alloc, *part, text),
            mark: *mark,
        },
        Chosen::Ack(part, text, commit) => Choice::Ack {
            row: row(rt, alloc, *part, text),
            id: RecordId {
                commit: *commit,
                index: 0,
            },
        },
        Chosen::Purge(part, text, floor) => Choice::Purge {
            row: row(rt, alloc, *part, text),
            floor: *floor,
        },
    }
}

// What stands after one more choice, which is a lawful entry's. The test ends where there is none.
fn stepped<'a>(
    rt: &impl Abort,
    alloc: Global,
    standing: Standing<'a>,
    chosen: &Chosen,
) -> Standing<'a> {
    if standing.history().len() >= 100 {
        drop(standing);
        rt.panic("the choices are too many");
    }
    let choice = choice(rt, alloc, chosen);
    let entry = made(rt, standing.entry_of(alloc, &choice));
    drop(choice);
    let Some(entry) = entry else {
        drop(standing);
        rt.panic("no lawful entry has the choice")
    };
    made(rt, standing.push(alloc, entry))
}

// What stands after the first of these choices, each of which is a lawful entry's.
fn followed<'a>(
    rt: &impl Abort,
    alloc: Global,
    case: &'a Case,
    choices: &[Chosen],
    count: usize,
) -> Standing<'a> {
    let mut standing = made(rt, Standing::new(alloc, case));
    for (at, chosen) in choices.iter().enumerate() {
        if at < count {
            standing = stepped(rt, alloc, standing, chosen);
        }
    }
    standing
}

// Of the entry that has a choice, where there is one, the sequencer of an injected line, and of another entry 0.
fn sequencer_of(
    rt: &impl Abort,
    alloc: Global,
    standing: &Standing<'_>,
    chosen: &Chosen,
) -> Option<u64> {
    let choice = choice(rt, alloc, chosen);
    let entry = made(rt, standing.entry_of(alloc, &choice));
    drop(choice);
    let sequencer = match &entry {
        Some(Entry::Inject { seq, .. }) => Some(*seq),
        Some(_) => Some(0),
        None => None,
    };
    drop(entry);
    sequencer
}

// Whether it is as asked behind these choices, over the three records.
fn is_as_asked(rt: &impl Abort, alloc: Global, choices: &[Chosen], row: &Row) -> bool {
    let case = case(rt, alloc, COUNT, RECORDS);
    let standing = followed(rt, alloc, &case, choices, row.0);
    let is = match &row.1 {
        Asked::Told(entries, is_finished) => {
            standing.history().len() == *entries && standing.is_finished() == *is_finished
        }
        Asked::Lawless(chosen) => sequencer_of(rt, alloc, &standing, chosen).is_none(),
        Asked::Under(seq, chosen) => sequencer_of(rt, alloc, &standing, chosen) == Some(*seq),
    };
    drop(standing);
    drop(case);
    is
}

// Each row holds behind these choices.
fn all_are_as_asked(rt: &impl Abort, alloc: Global, choices: &[Chosen], rows: &[Row]) {
    for (at, row) in rows.iter().enumerate() {
        must(rt, is_as_asked(rt, alloc, choices, row), at);
    }
}

#[test]
fn each_choice_of_the_example_has_its_entry(rt: HostRuntime) {
    all_are_as_asked(&rt, rt.alloc(), &DRAINED, &WHOLE);
}

#[test]
fn work_is_left_before_the_last_timer(rt: HostRuntime) {
    all_are_as_asked(&rt, rt.alloc(), &DRAINED, &BEFORE_THE_TIMER);
}

#[test]
fn a_lawless_choice_is_refused(rt: HostRuntime) {
    all_are_as_asked(&rt, rt.alloc(), &DRAINED, &LAWLESS);
}

#[test]
fn a_later_claim_is_the_one_that_counts(rt: HostRuntime) {
    all_are_as_asked(&rt, rt.alloc(), &CLAIMED_AGAIN, &LATER);
}
