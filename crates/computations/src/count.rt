//! The count of each key's records in windows.
ghost use Rattle.std.specs.Prelude.{ℕ, ◌≡◌, ◌==◌, ◌<◌, ◌≤◌, ◌^◌, not, map, find, filter, length, slice_get, IfOk, IfErr, IfSome, IfNone, OnOk};
ghost use Rattle.std.specs.List.Sorted.{IsStrictlySortedBy};
ghost use Rattle.std.specs.Ordering.{nat_cmp};
ghost use Rattle.mw_types.specs.declared.kind.Kind.TheVariants as kinds;
ghost use Rattle.mw_types.specs.declared.state.Window.{Window};
ghost use Rattle.mw_types.specs.Bounds.{IsWithin, AreWindows};
ghost use Rattle.computations.specs.Handlers.{one_more, window_end, counted, effects_of};
ghost use Rattle.computations.specs.Handlers.{OfRecord, OfTimer};
ghost use Rattle.computations.specs.Handlings.{begun_by, ended_with};
ghost use Rattle.computations.specs.Places.{IsPlace, IsGap, IsBetween};

use crate::context::Context;
use crate::places::{Numbered, enter, place_of, take};
use crate::tally::one_more;
use mw_types::{MAX_STAMP, NoMemory, Record, State, Timer, Window, WindowList};
use std::alloc::Global;

impl Numbered for Window {
    ghost use Rattle.computations.specs.Handlers.{one_more};

    ghost number = { λ w. w.end };

    ghost joined = { λ w _. record w { count = one_more w.count } };

    fn number(&self) -> u64 {
        self.end
    }

    fn joined(self, _new: Window) -> Window {
        Window {
            end: self.end,
            count: one_more(self.count),
        }
    }
}

// The handler of records of a count with windows of this size.
pub(crate) fn on_record(context: &mut Context, size: u64, item: &Record) -> Result<(), NoMemory>
    requires made { context.old ≡ begun_by context.old.key context.old.state (OfRecord item.now) }
    requires size { (1 ≤ size) × (size ≤ 2 ^ 40) }
    requires within { IsWithin context.old.state }
    requires in_time { item.now.stamp ≤ MAX_STAMP }
    ensures effects { let kind = kinds.Count size in
        let o = effects_of kind context.old.key context.old.state (OfRecord item.now) in
        OnOk result (context.new ≡ ended_with context.old o) }
    ensures within { OnOk result (IsWithin context.new.state) }
{
    let State::Count { late, windows } = context.state_mut() else {
        return Ok(());
    };
    if item.late {
        *late = one_more(*late);
        return Ok(());
    }
    let end = window_end(size, item.stamp);
    count(windows, end)?;
    context.set_timer(0, end)
}

// The handler of timers of a count.
pub(crate) fn on_timer(alloc: Global, context: &mut Context, timer: &Timer) -> Result<(), NoMemory>
    requires made { context.old ≡ begun_by context.old.key context.old.state (OfTimer timer.now) }
    requires within { IsWithin context.old.state }
    requires in_time { timer.now.time ≤ MAX_STAMP }
    ensures effects { (size : ℕ) →
        let kind = kinds.Count size in
        let o = effects_of kind context.old.key context.old.state (OfTimer timer.now) in
        OnOk result (context.new ≡ ended_with context.old o) }
    ensures within { OnOk result (IsWithin context.new.state) }
{
    if timer.tag != 0 {
        return Ok(());
    }
    let State::Count { late: _, windows } = context.state_mut() else {
        return Ok(());
    };
    let Some(window) = close(windows, timer.time)? else {
        return Ok(());
    };
    context.produce_for_row(alloc, window.end, window.count as i64)
}

// The end of the window in which a timestamp lies.
fn window_end(size: u64, stamp: u64) -> u64
    requires size { (1 ≤ size) × (size ≤ 2 ^ 40) }
    requires in_time { stamp ≤ MAX_STAMP }
    ensures { result ≡ window_end size stamp }
{
    (stamp - stamp % size + size).min(MAX_STAMP)
}

// Counts one record in the window that ends here, which may be a new one.
fn count(windows: &mut WindowList, end: u64) -> Result<(), NoMemory>
    requires in_time { end ≤ MAX_STAMP }
    requires within { AreWindows windows.old }
    ensures counted { OnOk result (windows.new ≡ counted windows.old end) }
    ensures within { OnOk result (AreWindows windows.new) }
{
    enter(windows, Window { end, count: 1 })?;
    Ok(())
}

// Takes the window that ends here away, if it is there.
fn close(windows: &mut WindowList, end: u64) -> Result<Option<Window>, NoMemory>
    requires { AreWindows windows.old }
    ensures closed { IfOk result (λ due. due ≡ find (λ w. w.end == end) windows.old) }
    ensures gone { IfOk result (λ due. IfSome due (λ due.
        windows.new ≡ filter (λ w. not (w.end == due.end)) windows.old)) }
    ensures stays { IfOk result (λ due. IfNone due (windows.new ≡ windows.old)) }
    ensures due { IfOk result (λ due. IfSome due (λ due.
        (due.end ≡ end) × (due.count ≤ MAX_STAMP))) }
    ensures within { OnOk result (AreWindows windows.new) }
{
    match place_of(windows, end) {
        Ok(at) => Ok(Some(take(windows, at)?)),
        Err(_) => Ok(None),
    }
}
