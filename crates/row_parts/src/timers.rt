//! The timers of a row: setting one and taking one away.
ghost use Rattle.std.specs.Prelude.{◌≡◌, ◌≤◌, ◌||◌, IsTrue, OnOk, OnErr, not};
ghost use Rattle.std.specs.List.{list_any};
ghost use Rattle.row_parts.specs.Contents.{AreTimers, is_timer, set_again, with_timer, without_timer};

use crate::places::{room, timer_place};
use mw_types::{MAX_STAMP, NoMemory, Timer, TimerList};

// What is left of a timer that is set again.
fn again(new: Timer, old: Timer) -> Timer
    ensures { result ≡ set_again new old }
{
    Timer {
        late: new.late && old.late,
        ..old
    }
}

// Whether a timer that is set again stays what it is.
fn stays(new: Timer, old: Timer) -> bool
    ensures { result ≡ (new.late || not old.late) }
{
    new.late || !old.late
}

/// Sets a timer among these, in order; its time is in whole microseconds. A pair that is set already
/// stays one timer. Refuses where memory ran out, or 2^32 - 1 are there, and leaves the timers as
/// they were.
pub fn set_timer(timers: &mut TimerList, timer: Timer) -> Result<(), NoMemory>
    requires timers { AreTimers timers.old }
    requires time { timer.time ≤ MAX_STAMP }
    ensures ok { OnOk result (timers.new ≡ with_timer timer timers.old) }
    ensures err { OnErr result (timers.new ≡ timers.old) }
    ensures timers { AreTimers timers.new }
{
    match timer_place(timers.as_slice(), timer.tag, timer.time) {
        Ok(at) => {
            let old = timers.as_slice()[at];
            timers.set(at, again(timer, old));
        }
        Err(at) => {
            room(timers.len())?;
            timers.insert(at, timer)?;
        }
    }
    Ok(())
}

/// Whether a timer is set already, so that to set it again changes nothing.
pub fn is_set(timers: &[Timer], timer: Timer) -> bool
    requires { AreTimers timers.now }
    ensures { IsTrue result → with_timer timer timers.now ≡ timers.now }
{
    match timer_place(timers, timer.tag, timer.time) {
        Ok(at) => stays(timer, timers[at]),
        Err(_) => false,
    }
}

/// Takes the timer with this tag and time, in whole microseconds, away, and tells whether it was
/// there.
pub fn take_timer(timers: &mut TimerList, tag: u64, time: u64) -> bool
    requires { AreTimers timers.old }
    ensures found { result ≡ list_any (is_timer tag time) timers.old }
    ensures rest { timers.new ≡ without_timer tag time timers.old }
    ensures timers { AreTimers timers.new }
{
    match timer_place(timers.as_slice(), tag, time) {
        Ok(at) => {
            timers.remove(at);
            true
        }
        Err(_) => false,
    }
}
