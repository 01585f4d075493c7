//! The handlers of a spike, over the counts of a count, and of a pass.
ghost use Rattle.std.specs.Prelude.{◌≡◌, Some};
ghost use Rattle.mw_types.specs.declared.kind.Kind.TheVariants as kinds;
ghost use Rattle.mw_types.specs.Bounds.{IsWithin};
ghost use Rattle.computations.specs.Parts.{HasState, kind_at};

use super::{Deed, fresh, of_record, walked, watched};
use crate::tests::foundations::{Holds, are, each_holds, key_of};
use computations::Kinds;
use mw_types::{HeldList, Key, Record, State, ValueList};
use std::alloc::Global;
use std::process::Abort;

// A row of the spike with no total.
fn nothing_held(alloc: Global, work: &Kinds) -> State
    requires { kind_at work.now 2 ≡ Some (kinds.Spike 2 3) }
    ensures has { HasState work.now 2 result }
    ensures within { IsWithin result }
{
    State::Spike {
        late: 0,
        held: HeldList::new(alloc),
        known: ValueList::new(alloc),
    }
}

// A row of the pass.
fn nothing_passed(work: &Kinds) -> State
    requires { kind_at work.now 3 ≡ Some kinds.Pass }
    ensures has { HasState work.now 3 result }
    ensures within { IsWithin result }
{
    State::Pass { late: 0 }
}

// One record in each of two windows, and seven in a third.
const ONE_ONE_SEVEN: [Deed; 12] = [
    Deed::Record(0, 0),
    Deed::Record(60, 0),
    Deed::Record(120, 0),
    Deed::Record(121, 0),
    Deed::Record(122, 0),
    Deed::Record(123, 0),
    Deed::Record(124, 0),
    Deed::Record(125, 0),
    Deed::Record(126, 0),
    Deed::Timer(60),
    Deed::Timer(120),
    Deed::Timer(180),
];

// These totals, each of which is judged before the next comes.
const ONE_ONE_SEVEN_JUDGED: [Deed; 6] = [
    Deed::Record(60, 1),
    Deed::Timer(61),
    Deed::Record(120, 1),
    Deed::Timer(121),
    Deed::Record(180, 7),
    Deed::Timer(181),
];

// One record in each of two windows, and three in a third, which closes first.
const ONE_ONE_THREE: [Deed; 6] = [
    Deed::Record(0, 0),
    Deed::Record(60, 0),
    Deed::Record(120, 0),
    Deed::Record(121, 0),
    Deed::Record(122, 0),
    Deed::Timer(180),
];

// These totals, each of which is judged before the next comes.
const ONE_ONE_THREE_JUDGED: [Deed; 6] = [
    Deed::Record(60, 1),
    Deed::Timer(61),
    Deed::Record(120, 1),
    Deed::Timer(121),
    Deed::Record(180, 3),
    Deed::Timer(181),
];

// Twenty totals, one in each ten microseconds, and then two more at the eighth, of which the greater stays,
// and which is judged.
const TWENTY: [Deed; 23] = [
    Deed::Record(0, 5),
    Deed::Record(10, 5),
    Deed::Record(20, 5),
    Deed::Record(30, 5),
    Deed::Record(40, 5),
    Deed::Record(50, 5),
    Deed::Record(60, 5),
    Deed::Record(70, 5),
    Deed::Record(80, 5),
    Deed::Record(90, 5),
    Deed::Record(100, 5),
    Deed::Record(110, 5),
    Deed::Record(120, 5),
    Deed::Record(130, 5),
    Deed::Record(140, 5),
    Deed::Record(150, 5),
    Deed::Record(160, 5),
    Deed::Record(170, 5),
    Deed::Record(180, 5),
    Deed::Record(190, 5),
    Deed::Record(70, 9),
    Deed::Record(70, 3),
    Deed::Timer(71),
];

// Two totals at the end of time, the later one first.
const AT_THE_END: [Deed; 4] = [
    Deed::Record(9223372036854775807, 1),
    Deed::Record(9223372036854775806, 2),
    Deed::Timer(9223372036854775807),
    Deed::Timer(9223372036854775807),
];

// What is handed to a row, and what comes of it.
enum Case {
    // A count produces these, in this order.
    Counts(&'static [Deed], &'static [(u64, i64)]),
    // A spike holds so many totals then, knows these, and has produced those.
    Judges(&'static [Deed], usize, &'static [i64], &'static [(u64, i64)]),
    // A pass produces a record, late or not, again, and its row has so many late ones then.
    Passes(bool, u64),
}

static CASES: [(&str, Case); 8] = [
    (
        "one, one, seven",
        Case::Counts(&ONE_ONE_SEVEN, &[(60, 1), (120, 1), (180, 7)]),
    ),
    ("one, one, three", Case::Counts(&ONE_ONE_THREE, &[(180, 3)])),
    (
        "a spike above three times",
        Case::Judges(&ONE_ONE_SEVEN_JUDGED, 0, &[1, 7], &[(181, 7)]),
    ),
    (
        "no spike at three times",
        Case::Judges(&ONE_ONE_THREE_JUDGED, 0, &[1, 3], &[]),
    ),
    (
        "a total of a long list is found",
        Case::Judges(&TWENTY, 19, &[9], &[]),
    ),
    (
        "of two totals due at the end the first goes",
        Case::Judges(&AT_THE_END, 0, &[2, 1], &[]),
    ),
    ("a record passes", Case::Passes(false, 0)),
    ("a late record passes", Case::Passes(true, 1)),
];

// Whether a count produced these, in this order.
fn counts(rt: &impl Abort, alloc: Global, deeds: &[Deed], want: &[(u64, i64)]) -> bool {
    let work = watched(rt, alloc);
    let (state, produced) = walked(rt, alloc, &work, 1, fresh(alloc, &work), deeds);
    drop(state);
    drop(work);
    are(produced, want)
}

// Whether a spike holds so many totals after these, and knows these; and it produced these.
fn judges(
    rt: &impl Abort,
    alloc: Global,
    deeds: &[Deed],
    many: usize,
    totals: &[i64],
    want: &[(u64, i64)],
) -> bool {
    let work = watched(rt, alloc);
    let (state, produced) = walked(rt, alloc, &work, 2, nothing_held(alloc, &work), deeds);
    drop(work);
    let is_spike = match &state {
        State::Spike {
            late: _,
            held,
            known,
        } => held.len() == many && known.as_slice() == totals,
        _ => false,
    };
    drop(state);
    are(produced, want) && is_spike
}

// Whether a record of the key `h/x` is produced again in a row of another key, no timer is set, and the row has so many
// late ones then.
fn passes(rt: &impl Abort, alloc: Global, late: bool, after: u64) -> bool {
    let item = Record {
        key: key_of(rt, alloc, "h/x"),
        stamp: 5,
        value: -3,
        late,
    };
    let work = watched(rt, alloc);
    let state = nothing_passed(&work);
    let key = Key::none(alloc);
    let effects = of_record(rt, alloc, &work, 3, &key, &state, &item);
    drop(key);
    drop(state);
    drop(work);
    drop(item);
    let is_left = match &effects.state {
        State::Pass { late } => *late == after && effects.timers.is_empty(),
        _ => false,
    };
    let is_repeated = match effects.productions.as_slice() {
        [one] => one.key.text() == "h/x" && one.stamp == 5 && one.value == -3,
        _ => false,
    };
    drop(effects);
    is_left && is_repeated
}

impl Holds for Case {
    fn holds<R: Abort>(&self, rt: &R, alloc: Global) -> bool {
        match self {
            Case::Counts(deeds, want) => counts(rt, alloc, deeds, want),
            Case::Judges(deeds, many, totals, want) => {
                judges(rt, alloc, deeds, *many, totals, want)
            }
            Case::Passes(late, after) => passes(rt, alloc, *late, *after),
        }
    }
}

#[test]
fn a_count_a_spike_and_a_pass(rt: HostRuntime) {
    each_holds(&rt, rt.alloc(), &CASES);
}
