//! The first timers of rows, in the order in which they are due.
ghost use Rattle.std.specs.Prelude.{◌≡◌, IfOk, List, None, OnOk};
ghost use Rattle.std.specs.Option.{option_map};
ghost use Rattle.std.specs.List.Sorted.{IsStrictlySortedBy};
ghost use Rattle.std.specs.Map.{keys_of};
ghost use Rattle.mw_types.specs.declared.identity.RowName.{RowName};
ghost use Rattle.row_parts.specs.Contents.{Contents};
ghost use Rattle.holdings.specs.Dues.{AreDues, due_at, due_order, is_same_due, timer_at};
ghost use Rattle.holdings.specs.Keyed.{HasRekeyed, IsThere};
ghost use Rattle.holdings.specs.Timers.{IsFirstTimer};

use crate::first_timer::RowTimer;
use mw_types::{Duplicate, NoMemory, RowName, Timer};
use std::alloc::Global;
use std::collections::BTreeMap;

// When a timer is due, and then its tag: so stand the timers of one row.
#[derive(Clone, Copy, PartialEq, Eq, PartialOrd, Ord)]
pub(crate) struct Moment {
    pub(crate) time: u64,
    pub(crate) tag: u64,
}

// The first timer of a row: so stand those of several rows. Whether it is late stands last, where it
// orders nothing, since a row has one first timer.
#[derive(Drop, PartialEq, Eq, PartialOrd, Ord)]
pub(crate) struct Due {
    pub(crate) at: Moment,
    pub(crate) name: RowName,
    pub(crate) late: bool,
}

// The first timers of rows, of which the first is asked.
pub(crate) type Dues = BTreeMap<Due, ()>;

// One first timer in the place of another, of a row that may have none. Most writes leave a row's
// first timer as it was, and those change nothing.
pub(crate) fn set_due(
    alloc: Global,
    dues: &mut Dues,
    name: &RowName,
    before: Option<Timer>,
    after: Option<Timer>,
) -> Result<(), NoMemory>
    requires ordered { IsStrictlySortedBy due_order (keys_of dues.old.entries) }
    requires there { IsThere due_order (option_map (due_at name.now) before) dues.old.entries }
    ensures set { OnOk result (HasRekeyed due_order (option_map (due_at name.now) before)
        (option_map (due_at name.now) after) dues.old.entries dues.new.entries) }
{
    if is_same(before, after) {
        return Ok(());
    }
    change_due(alloc, dues, name, before, after)
}

// Whether two timers of one row are the same, or neither is there.
fn is_same(before: Option<Timer>, after: Option<Timer>) -> bool
    ensures { result ≡ is_same_due before after }
{
    match (before, after) {
        (Some(a), Some(b)) => a.time == b.time && a.tag == b.tag && a.late == b.late,
        (None, None) => true,
        _ => false,
    }
}

// One first timer is gone, then another is there.
fn change_due(
    alloc: Global,
    dues: &mut Dues,
    name: &RowName,
    before: Option<Timer>,
    after: Option<Timer>,
) -> Result<(), NoMemory>
    requires ordered { IsStrictlySortedBy due_order (keys_of dues.old.entries) }
    ensures set { OnOk result (HasRekeyed due_order (option_map (due_at name.now) before)
        (option_map (due_at name.now) after) dues.old.entries dues.new.entries) }
{
    drop_due(alloc, dues, name, before)?;
    add_due(alloc, dues, name, after)
}

// A row's first timer is gone, if it had one.
fn drop_due(
    alloc: Global,
    dues: &mut Dues,
    name: &RowName,
    before: Option<Timer>,
) -> Result<(), NoMemory>
    requires ordered { IsStrictlySortedBy due_order (keys_of dues.old.entries) }
    ensures gone { OnOk result (HasRekeyed due_order (option_map (due_at name.now) before) None
        dues.old.entries dues.new.entries) }
{
    if let Some(timer) = before {
        let due = due_of(alloc, name, timer)?;
        dues.remove(&due);
    }
    Ok(())
}

// A row has this first timer, if it has one.
pub(crate) fn add_due(
    alloc: Global,
    dues: &mut Dues,
    name: &RowName,
    after: Option<Timer>,
) -> Result<(), NoMemory>
    requires ordered { IsStrictlySortedBy due_order (keys_of dues.old.entries) }
    ensures added { OnOk result (HasRekeyed due_order None (option_map (due_at name.now) after)
        dues.old.entries dues.new.entries) }
{
    if let Some(timer) = after {
        let due = due_of(alloc, name, timer)?;
        dues.insert(due, ())?;
    }
    Ok(())
}

// A timer of a row of this name.
fn due_of(alloc: Global, name: &RowName, timer: Timer) -> Result<Due, NoMemory>
    ensures { IfOk result (λ due. due ≡ due_at name.now timer) }
{
    Ok(Due {
        at: Moment {
            time: timer.time,
            tag: timer.tag,
        },
        name: name.copy(alloc)?,
        late: timer.late,
    })
}

// The first timer of all rows, with the name of its row, or none where no row has a timer.
pub(crate) fn first_timer(alloc: Global, dues: &Dues) -> Result<Option<RowTimer>, NoMemory>
    ensures { (rows : List (RowName × Contents)) → AreDues rows dues.now.entries →
        IfOk result (IsFirstTimer rows) }
{
    match dues.first_key_value() {
        Some((due, _)) => Ok(Some(row_timer(alloc, due)?)),
        None => Ok(None),
    }
}

// The timer, with the name of its row.
fn row_timer(alloc: Global, due: &Due) -> Result<RowTimer, NoMemory>
    ensures { IfOk result (λ found. found ≡ timer_at due.now) }
{
    Ok(RowTimer {
        name: due.name.copy(alloc)?,
        timer: Timer {
            tag: due.at.tag,
            time: due.at.time,
            late: due.late,
        },
    })
}
