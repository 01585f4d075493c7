//! The oldest work of one row.
ghost use Rattle.std.specs.Prelude.{◌≡◌, cond, filter, map, min, not};
ghost use Rattle.std.specs.List.Sorted.{IsStrictlySortedBy};
ghost use Rattle.mw_types.specs.Orders.{timer_cmp};
ghost use Rattle.mw_types.specs.declared.timer.Timer.{Timer};
ghost use Rattle.mw_types.specs.declared.delivery.Delivery.{Delivery};
ghost use Rattle.run_history.specs.Marks.{row_marks};
ghost use Rattle.run_history.specs.Watermarks.{least};

use mw_types::{Delivery, END, Timer};
use row_parts::Row;

// The oldest work of a row that is not late, or the end where there is none. Each write asks it
// twice, so it goes no further than to the first timer that is not late.
pub(crate) fn row_work(row: &Row) -> u64
    ensures { result ≡ least (row_marks row.now) }
{
    row.sound();
    oldest_pending(row.pending.as_slice(), first_time(row.timers.as_slice()))
}

// The time of the first of timers that is not late, or the end where there is none. They ascend by
// time, so none behind it is older.
fn first_time(timers: &[Timer]) -> u64
    requires { IsStrictlySortedBy timer_cmp timers.now }
    ensures { result ≡ least (map (λ (t : Timer). t.time)
        (filter (λ (t : Timer). not t.late) timers.now)) }
{
    for timer in timers {
        if !timer.late {
            return timer.time;
        }
    }
    END
}

/// The least time of timers that are not late, or the end where there is none.
pub fn oldest_timer(timers: &[Timer]) -> u64
    ensures { result ≡ least (map (λ (t : Timer). t.time)
        (filter (λ (t : Timer). not t.late) timers.now)) }
{
    let mut oldest = END;
    for timer in timers {
        oldest = lesser(timer.late, timer.time, oldest);
    }
    oldest
}

// The lesser of a mark and the least timestamp of deliveries that are not late.
fn oldest_pending(pending: &[Delivery], mark: u64) -> u64
    ensures { result ≡ min mark (least (map (λ (d : Delivery). d.item.stamp)
        (filter (λ (d : Delivery). not d.item.late) pending.now))) }
{
    let mut oldest = mark;
    for delivery in pending {
        oldest = lesser(delivery.item.late, delivery.item.stamp, oldest);
    }
    oldest
}

// The lesser of a mark and a time, unless that is late.
fn lesser(late: bool, time: u64, mark: u64) -> u64
    ensures { result ≡ cond late mark (min mark time) }
{
    if late { mark } else { mark.min(time) }
}
