//! The handlers of `computations`, over a table of all three kinds.
ghost use Rattle.std.specs.Prelude.{◌≡◌, ◌≤◌, Some};
ghost use Rattle.mw_types.specs.declared.kind.Kind.TheVariants as kinds;
ghost use Rattle.mw_types.specs.Bounds.{IsWithin};
ghost use Rattle.computations.specs.Parts.{HasState, kind_at};

mod spikes;

use super::{made, must};
use computations::{Computation, Context, Kinds};
use mw_types::{Effects, Key, Kind, KindTable, MAX_STAMP, Record, Seq, State, Timer, WindowList};
use std::alloc::Global;
use std::process::Abort;

// One injector, a count with windows of 60 microseconds, a spike that compares two totals by the
// factor three, and a pass.
struct ThreeKinds;

impl KindTable for ThreeKinds {
    ghost use Rattle.std.specs.Prelude.{[], ◌∷◌};
    ghost use Rattle.mw_types.specs.declared.kind.Kind.TheVariants as kinds;

    ghost injector_count = { λ _. 1 };

    ghost kinds = { λ _. kinds.Count 60 ∷ kinds.Spike 2 3 ∷ kinds.Pass ∷ [] };

    fn parts(&self) -> u32 {
        4
    }

    fn injectors(&self) -> u32 {
        1
    }

    fn kind(&self, part: u32) -> Kind {
        match part {
            1 => Kind::Count { size: 60 },
            2 => Kind::Spike { last: 2, times: 3 },
            _ => Kind::Pass,
        }
    }
}

// The computations of that table.
fn watched(rt: &impl Abort, alloc: Global) -> Kinds
    ensures count { kind_at result 1 ≡ Some (kinds.Count 60) }
    ensures spike { kind_at result 2 ≡ Some (kinds.Spike 2 3) }
    ensures pass { kind_at result 3 ≡ Some kinds.Pass }
{
    made(rt, Kinds::of(alloc, &ThreeKinds))
}

// A row of the count with no open window.
fn fresh(alloc: Global, work: &Kinds) -> State
    requires { kind_at work.now 1 ≡ Some (kinds.Count 60) }
    ensures has { HasState work.now 1 result }
    ensures within { IsWithin result }
{
    State::Count {
        late: 0,
        windows: WindowList::new(alloc),
    }
}

// What a computation leaves of a record.
fn of_record<C: Computation>(
    rt: &impl Abort,
    alloc: Global,
    work: &C,
    part: u32,
    key: &Key,
    state: &State,
    item: &Record,
) -> Effects
    requires computation { (C.does work.now).has part state.now }
    requires within { IsWithin state.now }
    requires in_time { item.now.stamp ≤ MAX_STAMP }
    ensures has { (C.does work.now).has part result.state }
    ensures within { IsWithin result.state }
{
    let mut context = made(rt, Context::for_record(alloc, key, state, item));
    made(rt, work.on_record(alloc, part, &mut context, item));
    context.into_effects()
}

// What a computation leaves of a timer.
fn of_timer<C: Computation>(
    rt: &impl Abort,
    alloc: Global,
    work: &C,
    part: u32,
    key: &Key,
    state: &State,
    timer: &Timer,
) -> Effects
    requires computation { (C.does work.now).has part state.now }
    requires within { IsWithin state.now }
    requires in_time { timer.now.time ≤ MAX_STAMP }
    ensures has { (C.does work.now).has part result.state }
    ensures within { IsWithin result.state }
{
    let mut context = made(rt, Context::for_timer(alloc, key, state, timer));
    made(rt, work.on_timer(alloc, part, &mut context, timer));
    context.into_effects()
}

// What is handed to a part: a record of this timestamp and value, or the timer of this time.
enum Deed {
    Record(u64, i64),
    Timer(u64),
}

// A record of no key that is in time.
fn record(alloc: Global, stamp: u64, value: i64) -> Record
    ensures in_time { result.stamp ≤ MAX_STAMP }
    ensures not_after { result.stamp ≤ stamp }
{
    Record {
        key: Key::none(alloc),
        stamp: stamp.min(MAX_STAMP),
        value,
        late: false,
    }
}

/// A timer that is in time, and was set late or not.
pub(super) fn timer(time: u64, late: bool) -> Timer
    ensures { result.time ≤ MAX_STAMP }
{
    Timer {
        tag: 0,
        time: time.min(MAX_STAMP),
        late,
    }
}

// What a part leaves of one of both in a row of no key.
fn left_by(
    rt: &impl Abort,
    alloc: Global,
    work: &Kinds,
    part: u32,
    state: &State,
    deed: &Deed,
) -> Effects
    requires has { HasState work.now part state.now }
    requires within { IsWithin state.now }
    ensures has { HasState work.now part result.state }
    ensures within { IsWithin result.state }
{
    let key = Key::none(alloc);
    match deed {
        Deed::Record(stamp, value) => {
            let item = record(alloc, *stamp, *value);
            let effects = of_record(rt, alloc, work, part, &key, state, &item);
            drop(item);
            drop(key);
            effects
        }
        Deed::Timer(time) => {
            let due = timer(*time, false);
            let effects = of_timer(rt, alloc, work, part, &key, state, &due);
            drop(key);
            effects
        }
    }
}

// The timestamps and values of records that were produced.
type Produced = Seq<(u64, i64)>;

// Notes what a handler produced.
fn note(rt: &impl Abort, produced: &mut Produced, effects: &Effects) {
    for one in effects.productions.as_slice() {
        made(rt, produced.push((one.stamp, one.value)));
    }
}

// The state of what a handler leaves.
fn state_of(effects: Effects) -> State
    ensures { result ≡ effects.state }
{
    let Effects {
        state,
        timers: _,
        productions: _,
    } = effects;
    state
}

// The state of a row after one of both, and what was produced is noted.
fn stepped(
    rt: &impl Abort,
    alloc: Global,
    work: &Kinds,
    part: u32,
    state: &State,
    deed: &Deed,
    produced: &mut Produced,
) -> State
    requires has { HasState work.now part state.now }
    requires within { IsWithin state.now }
    ensures has { HasState work.now part result }
    ensures within { IsWithin result }
{
    let effects = left_by(rt, alloc, work, part, state, deed);
    note(rt, produced, &effects);
    state_of(effects)
}

// The state of a row after these, and what was produced on the way. The loop has the one call with
// conditions, so that no test carries what each call before has told.
fn walked(
    rt: &impl Abort,
    alloc: Global,
    work: &Kinds,
    part: u32,
    first: State,
    deeds: &[Deed],
) -> (State, Produced)
    requires has { HasState work.now part first }
    requires within { IsWithin first }
{
    let mut state = first;
    let mut produced = Seq::new(alloc);
    for deed in deeds {
        state = stepped(rt, alloc, work, part, &state, deed, &mut produced);
    }
    (state, produced)
}

// A context shows the row of no key and its state, and takes a timer and a record.
#[test]
fn a_context_shows_the_row_and_takes_what_a_handler_does(rt: HostRuntime) {
    let alloc = rt.alloc();
    let key = Key::none(alloc);
    let state = State::Pass { late: 2 };
    let item = record(alloc, 10, 7);
    let mut context = made(&rt, Context::for_record(alloc, &key, &state, &item));
    let is_shown = *context.key() == key && *context.state() == state;
    made(&rt, context.set_timer(7, 11));
    made(&rt, context.produce(alloc, &key, 10, -1));
    let effects = context.into_effects();
    drop(item);
    drop(state);
    drop(key);
    let counts = (effects.timers.len(), effects.productions.len());
    let is_pass = matches!(&effects.state, State::Pass { late: 2 });
    drop(effects);
    must(&rt, is_shown && is_pass && counts == (1, 1), "a context");
}
