//! The oldest work of each part, as entries come.
ghost use Rattle.std.specs.Prelude.{◌≡◌, ◌≢◌, ◌<◌, ℕ, [], All, Contains, IfOk, IfSome, OnOk, Some, get_or, length};
ghost use Rattle.mw_types.specs.declared.delivery.Delivery.{Delivery};
ghost use Rattle.topology.specs.Shapes.{Shape};
ghost use Rattle.run_history.specs.Runs.{cached, row_of};
ghost use Rattle.run_history.specs.Watermarks.{least, times_set};
ghost use Rattle.audit.specs.Choices.{MayCome};
ghost use Rattle.audit.specs.Keeping.{IsFollowed, IsKept, IsLeftOf, newly_pending};
ghost use Rattle.audit.specs.Works.{HasRestampedAt, HasStampLess, HasStampMore, HasStampsMore, HasTakenWork, HasWorked, mark_of, taken_by};

use crate::growing::new_pending;
use crate::kept::{Kept, Rows, Waiting};
use book::NamedRow;
use holdings::oldest_timer;
use mw_types::{Delivery, END, Entry, NoMemory, RowName};
use row_parts::Row;
use run_history::{Case, History};
use std::alloc::Global;
use watermark::Oldest;

// Each part without any work.
#[tactic(auto, using(crate::proofs::WorkSteps::none_more))]
pub(crate) fn no_works(alloc: Global, parts: u32) -> Result<Vec<Oldest>, NoMemory>
    ensures many { IfOk result (λ works. length works.items ≡ parts) }
    ensures none { IfOk result (λ works. (part : ℕ) → get_or works.items part [] ≡ []) }
{
    let mut works = Vec::new(alloc);
    for _part in 0..parts {
        works.push(Oldest::new(alloc))?;
    }
    Ok(works)
}

// What an entry that leaves a row changes: what it handles is no work any more, its row has other
// timers, and what it sends is work.
pub(crate) fn note_entry_work(
    case: &Case,
    history: &History,
    kept: &mut Kept,
    entry: &Entry,
    left: &NamedRow,
) -> Result<(), NoMemory>
    requires kept { IsKept case.now history.now kept.old }
    requires followed { IsFollowed case.now history.now }
    requires left { IsLeftOf case.now history.now entry.now (Some left.now) }
    requires next { MayCome case.now history.now entry.now }
    ensures works { OnOk result (HasWorked case.now.topology entry.now kept.old.waiting.entries
        kept.old.rows.entries left.now (newly_pending kept.old.rows.entries left.now)
        kept.old.works.items kept.new.works.items) }
    ensures rest { kept.new ≡ record kept.old { works = kept.new.works } }
{
    take_handled_work(&mut kept.works, &kept.waiting, entry);
    let before = time_before(&kept.rows, &left.name);
    restamp(
        &mut kept.works,
        left.name.part,
        before,
        first_time(&left.row),
    )?;
    note_work(&mut kept.works, new_pending(&kept.rows, left))
}

// What an entry handles is no work any more.
fn take_handled_work(works: &mut Vec<Oldest>, waiting: &Waiting, entry: &Entry)
    requires there { IfSome (taken_by entry.now waiting.now.entries)
        (λ d. d.to.part < length works.old.items) }
    requires held { IfSome (taken_by entry.now waiting.now.entries) (λ d. mark_of d ≢ END →
        Contains (get_or works.old.items d.to.part []) (mark_of d)) }
    ensures taken { HasTakenWork (taken_by entry.now waiting.now.entries)
        works.old.items works.new.items }
    ensures many { length works.new.items ≡ length works.old.items }
{
    if let Entry::Handle { id, .. } = entry {
        if let Some(delivery) = waiting.get(id) {
            take_work(works, delivery);
        }
    }
}

// The least time of the timers of a row that are not late, or the end; the end where it is not there.
fn time_before(rows: &Rows, name: &RowName) -> u64
    ensures { (shape : Shape) → result
        ≡ least (times_set (row_of shape (cached rows.now.entries) name.now)) }
{
    match rows.get(name) {
        Some(row) => first_time(row),
        None => END,
    }
}

// One stamp in the place of another, of a part; the end is no stamp.
fn restamp(works: &mut Vec<Oldest>, part: u32, before: u64, after: u64) -> Result<(), NoMemory>
    requires there { part < length works.old.items }
    requires held { before ≢ END → Contains (get_or works.old.items part []) before }
    ensures changed { OnOk result
        (HasRestampedAt part before after works.old.items works.new.items) }
    ensures many { length works.new.items ≡ length works.old.items }
{
    remove_from(works, part, before);
    add_to(works, part, after)
}

// One stamp more of a part, unless it is the end.
fn add_to(works: &mut Vec<Oldest>, part: u32, stamp: u64) -> Result<(), NoMemory>
    requires there { part < length works.old.items }
    ensures added { OnOk result (HasStampMore part stamp works.old.items works.new.items) }
    ensures many { length works.new.items ≡ length works.old.items }
{
    if stamp == END {
        return Ok(());
    }
    works[part as usize].add(stamp)
}

// One stamp less of a part, unless it is the end.
fn remove_from(works: &mut Vec<Oldest>, part: u32, stamp: u64)
    requires there { part < length works.old.items }
    requires held { stamp ≢ END → Contains (get_or works.old.items part []) stamp }
    ensures removed { HasStampLess part stamp works.old.items works.new.items }
    ensures many { length works.new.items ≡ length works.old.items }
{
    if stamp == END {
        return;
    }
    works[part as usize].remove(stamp);
}

// What waits no more is no work.
fn take_work(works: &mut Vec<Oldest>, delivery: &Delivery)
    requires there { delivery.now.to.part < length works.old.items }
    requires held { mark_of delivery.now ≢ END →
        Contains (get_or works.old.items delivery.now.to.part []) (mark_of delivery.now) }
    ensures removed { HasStampLess delivery.now.to.part (mark_of delivery.now)
        works.old.items works.new.items }
    ensures many { length works.new.items ≡ length works.old.items }
{
    remove_from(works, delivery.to.part, mark_of(delivery));
}

// What was sent is work.
fn note_work(works: &mut Vec<Oldest>, sent: &[Delivery]) -> Result<(), NoMemory>
    requires there { All (λ (d : Delivery). d.to.part < length works.old.items) sent.now }
    ensures added { OnOk result (HasStampsMore sent.now works.old.items works.new.items) }
    ensures many { length works.new.items ≡ length works.old.items }
{
    for delivery in sent {
        add_to(works, delivery.to.part, mark_of(delivery))?;
    }
    Ok(())
}

// The timestamp of a delivery that is not late, or the end.
fn mark_of(delivery: &Delivery) -> u64
    ensures { result ≡ mark_of delivery.now }
{
    if delivery.item.late {
        END
    } else {
        delivery.item.stamp
    }
}

// The least time of a row's timers that are not late, or the end.
fn first_time(row: &Row) -> u64
    ensures { result ≡ least (times_set row.now) }
{
    oldest_timer(row.timers.as_slice())
}
