//! The intervals of parts that are not split yet.
ghost use Rattle.std.specs.Prelude.{◌≡◌, ◌++◌, ◌∷◌, ◌≤◌, ◌+◌, ◌-◌, [], Some, length, map, OnOk, IfOk};
ghost use Rattle.std.specs.List.{range_with_len};
ghost use Rattle.key_intervals.specs.declared.TheConstants.{INTERVALS_MAX};
ghost use Rattle.key_intervals.specs.Intervals.{part_bounds_of};
ghost use Rattle.key_intervals.specs.Division.{fresh};

use crate::bounds::Bounds;
use crate::given::{Given, fresh};
use crate::order::Order;
use mw_types::{Duplicate, Key, NoMemory, PartCuts};
use std::alloc::Global;

// Appends the intervals of one part, and their order.
pub(crate) fn push_part(
    alloc: Global,
    all: &mut Vec<Given>,
    orders: &mut Vec<Order>,
    part: &PartCuts,
) -> Result<(), NoMemory>
    requires few { length all.old.items + length (part_bounds_of part.now) ≤ INTERVALS_MAX }
    ensures all { OnOk result
        (all.new.items ≡ all.old.items ++ map fresh (part_bounds_of part.now)) }
    ensures orders { OnOk result (orders.new.items ≡ orders.old.items
        ++ range_with_len (length all.old.items) (length (part_bounds_of part.now)) ∷ []) }
{
    let first = all.len() as u32;
    push_intervals(alloc, all, part)?;
    let order = order_from(alloc, first, all.len() as u32)?;
    orders.push(order)?;
    Ok(())
}

// The order of the numbers from one on and below another.
fn order_from(alloc: Global, first: u32, end: u32) -> Result<Order, NoMemory>
    requires { first ≤ end }
    ensures { IfOk result (λ order. order ≡ range_with_len first (end - first)) }
{
    let mut numbers = Vec::new(alloc);
    for number in first..end {
        numbers.push(number)?;
    }
    Ok(Order::of(numbers))
}

// Appends the intervals of one part.
fn push_intervals(alloc: Global, all: &mut Vec<Given>, part: &PartCuts) -> Result<(), NoMemory>
    ensures { OnOk result (all.new.items ≡ all.old.items ++ map fresh (part_bounds_of part.now)) }
{
    let mut from = Key::none(alloc);
    for cut in part.cuts.as_slice() {
        from = push_up_to(alloc, all, part.part, from, cut)?;
    }
    push_fresh(all, part.part, from, None)
}

// Appends the interval of a part from one key on and below another, with which the next one begins.
fn push_up_to(
    alloc: Global,
    all: &mut Vec<Given>,
    part: u32,
    from: Key,
    end: &Key,
) -> Result<Key, NoMemory>
    ensures all { OnOk result (all.new.items
        ≡ all.old.items ++ fresh (record { part = part; from = from; to = Some end.now }) ∷ []) }
    ensures next { IfOk result (λ next. next ≡ end.now) }
{
    let to = Some(end.copy(alloc)?);
    push_fresh(all, part, from, to)?;
    end.copy(alloc)
}

// Appends the interval of a part from one key on and below another where there is one.
fn push_fresh(all: &mut Vec<Given>, part: u32, from: Key, to: Option<Key>) -> Result<(), NoMemory>
    ensures { OnOk result (all.new.items
        ≡ all.old.items ++ fresh (record { part = part; from = from; to = to }) ∷ []) }
{
    all.push(fresh(Bounds { part, from, to }))?;
    Ok(())
}
