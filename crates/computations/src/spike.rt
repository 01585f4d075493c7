//! The spike, which tells where a total is far above the ones before it.
ghost use Rattle.std.specs.Prelude.{ℕ, ℤ, ◌≡◌, ◌==◌, ◌<◌, ◌≤◌, ◌≤ℤ◌, ◌+ℤ◌, ◌*ℤ◌, ◌*◌, ◌^◌, not, pos, neg_ℤ, int_lt, find, filter, fold, length, slice_get, None, IfOk, IfSome, IfNone, OnOk};
ghost use Rattle.mw_types.specs.declared.kind.Kind.TheVariants as kinds;
ghost use Rattle.mw_types.specs.declared.state.HeldTotal.{HeldTotal};
ghost use Rattle.mw_types.specs.Bounds.{IsWithin, AreHeld};
ghost use Rattle.computations.specs.Handlers.{due_time, held_with, is_spike, known_with, effects_of};
ghost use Rattle.computations.specs.Handlers.{OfRecord, OfTimer};
ghost use Rattle.computations.specs.Handlings.{begun_by, ended_with};
ghost use Rattle.computations.specs.Places.{IsFirstFrom};

use crate::context::Context;
use crate::places::{Numbered, enter, place_of, take};
use crate::tally::one_more;
use mw_types::{HeldList, HeldTotal, MAX_STAMP, NoMemory, Record, State, Timer, ValueList};
use std::alloc::Global;

impl Numbered for HeldTotal {
    ghost use Rattle.std.specs.Int.{int_max};

    ghost number = { λ h. h.stamp };

    ghost joined = { λ h new. record h { value = int_max h.value new.value } };

    fn number(&self) -> u64 {
        self.stamp
    }

    fn joined(self, new: HeldTotal) -> HeldTotal {
        HeldTotal {
            stamp: self.stamp,
            value: self.value.max(new.value),
        }
    }
}

// The handler of records of a spike.
pub(crate) fn on_record(context: &mut Context, item: &Record) -> Result<(), NoMemory>
    requires made { context.old ≡ begun_by context.old.key context.old.state (OfRecord item.now) }
    requires within { IsWithin context.old.state }
    requires in_time { item.now.stamp ≤ MAX_STAMP }
    ensures effects { (last times : ℕ) → let kind = kinds.Spike last times in
        let o = effects_of kind context.old.key context.old.state (OfRecord item.now) in
        OnOk result (context.new ≡ ended_with context.old o) }
    ensures within { OnOk result (IsWithin context.new.state) }
{
    let State::Spike {
        late,
        held,
        known: _,
    } = context.state_mut()
    else {
        return Ok(());
    };
    if item.late {
        *late = one_more(*late);
        return Ok(());
    }
    hold(held, item.stamp, item.value)?;
    context.set_timer(0, due_time(item.stamp))
}

// The handler of timers of a spike that compares so many totals by this factor.
pub(crate) fn on_timer(
    alloc: Global,
    context: &mut Context,
    last: u32,
    times: u32,
    timer: &Timer,
) -> Result<(), NoMemory>
    requires made { context.old ≡ begun_by context.old.key context.old.state (OfTimer timer.now) }
    requires last { last ≤ 64 }
    requires times { times ≤ 1000 }
    requires within { IsWithin context.old.state }
    requires in_time { timer.now.time ≤ MAX_STAMP }
    ensures effects { let kind = kinds.Spike last times in
        let o = effects_of kind context.old.key context.old.state (OfTimer timer.now) in
        OnOk result (context.new ≡ ended_with context.old o) }
    ensures within { OnOk result (IsWithin context.new.state) }
{
    if timer.tag != 0 {
        return Ok(());
    }
    let State::Spike {
        late: _,
        held,
        known,
    } = context.state_mut()
    else {
        return Ok(());
    };
    let Some(total) = take_due(held, timer.time)? else {
        return Ok(());
    };
    let stands_out = is_spike(last, times, known.as_slice(), total.value);
    learn(known, last, total.value)?;
    if stands_out {
        return context.produce_for_row(alloc, timer.time, total.value);
    }
    Ok(())
}

// When the total of a timestamp is due.
fn due_time(stamp: u64) -> u64
    ensures { result ≡ due_time stamp }
{
    stamp.saturating_add(1).min(MAX_STAMP)
}

// Holds a total, where of two at one timestamp the greater stays.
fn hold(held: &mut HeldList, stamp: u64, value: i64) -> Result<(), NoMemory>
    requires in_time { stamp ≤ MAX_STAMP }
    requires within { AreHeld held.old }
    ensures held { OnOk result (held.new ≡ held_with held.old stamp value) }
    ensures within { OnOk result (AreHeld held.new) }
{
    enter(held, HeldTotal { stamp, value })?;
    Ok(())
}

// The place of the first total with this timestamp or a later one, or else the end.
fn first_from(held: &HeldList, stamp: u64) -> usize
    requires { AreHeld held.now }
    ensures { IsFirstFrom (λ (h : HeldTotal). h.stamp) held.now stamp result }
{
    match place_of(held, stamp) {
        Ok(at) | Err(at) => at,
    }
}

// The place of the first total that is due at this time, if one is.
fn place_due(held: &HeldList, time: u64) -> Option<usize>
    requires in_time { time ≤ MAX_STAMP }
    requires within { AreHeld held.now }
    ensures place { IfSome result (λ at. at < length held.now) }
    ensures first { IfSome result (λ at.
        find (λ h. due_time h.stamp == time) held.now ≡ slice_get held.now at) }
    ensures none { IfNone result (find (λ h. due_time h.stamp == time) held.now ≡ None) }
{
    // Two can be due at the greatest timestamp: its own total, and that of the one before.
    let at = first_from(held, time.saturating_sub(1));
    let Some(total) = held.get(at) else {
        return None;
    };
    if due_time(total.stamp) == time {
        Some(at)
    } else {
        None
    }
}

// Takes the first total that is due at this time away, if one is.
fn take_due(held: &mut HeldList, time: u64) -> Result<Option<HeldTotal>, NoMemory>
    requires in_time { time ≤ MAX_STAMP }
    requires within { AreHeld held.old }
    ensures first { IfOk result (λ due. due ≡ find (λ h. due_time h.stamp == time) held.old) }
    ensures gone { IfOk result (λ due. IfSome due (λ due.
        held.new ≡ filter (λ h. not (h.stamp == due.stamp)) held.old)) }
    ensures stays { IfOk result (λ due. IfNone due (held.new ≡ held.old)) }
    ensures due { IfOk result (λ due. IfSome due (λ due. due_time due.stamp ≡ time)) }
    ensures within { OnOk result (AreHeld held.new) }
{
    match place_due(held, time) {
        Some(at) => Ok(Some(take(held, at)?)),
        None => Ok(None),
    }
}

/// Whether a value is above so many times the mean of the known ones, of which there are enough.
pub fn is_spike(last: u32, times: u32, known: &[i64], value: i64) -> bool
    requires last { last ≤ 64 }
    requires times { times ≤ 1000 }
    ensures { result ≡ is_spike last times known.now value }
{
    if known.len() != last as usize {
        return false;
    }
    is_above(last, times, sum_of(known), value)
}

// Whether a value is above so many times the mean of so many totals with this sum.
fn is_above(last: u32, times: u32, sum: i128, value: i64) -> bool
    requires last { last ≤ 64 }
    requires times { times ≤ 1000 }
    requires above { neg_ℤ (pos (2 ^ 69)) ≤ℤ sum }
    requires below { sum ≤ℤ pos (2 ^ 69) }
    ensures { result ≡ int_lt (pos times *ℤ sum) (value *ℤ pos last) }
{
    scaled(sum, times) < scaled(value as i128, last)
}

// A number so many times.
fn scaled(number: i128, by: u32) -> i128
    requires by { by ≤ 1000 }
    requires above { neg_ℤ (pos (2 ^ 69)) ≤ℤ number }
    requires below { number ≤ℤ pos (2 ^ 69) }
    ensures { result ≡ number *ℤ pos by }
{
    number * (by as i128)
}

// The sum of the known values.
fn sum_of(known: &[i64]) -> i128
    requires few { length known.now ≤ 64 }
    ensures sum { result ≡ fold (λ sum x. sum +ℤ x) (pos 0) known.now }
    ensures above { neg_ℤ (pos (2 ^ 69)) ≤ℤ result }
    ensures below { result ≤ℤ pos (2 ^ 69) }
{
    let mut sum: i128 = 0;
    for value in known {
        sum = with_value(sum, *value);
    }
    sum
}

// A sum with one value more.
fn with_value(sum: i128, value: i64) -> i128
    requires above { neg_ℤ (pos (2 ^ 69)) ≤ℤ sum }
    requires below { sum ≤ℤ pos (2 ^ 69) }
    ensures { result ≡ sum +ℤ value }
{
    sum + (value as i128)
}

// Appends a total to the known ones, of which the last so many stay.
fn learn(known: &mut ValueList, last: u32, value: i64) -> Result<(), NoMemory>
    ensures known { OnOk result (known.new ≡ known_with last known.old value) }
{
    known.push(value)?;
    for _ in 0..known.len().saturating_sub(last as usize) {
        known.remove(0);
    }
    Ok(())
}
