//! Intervals that are split.
ghost use Rattle.std.specs.Prelude.{◌≡◌, ◌<◌, ◌≤◌, ◌⊎◌, None, Some, length, slice_set, IfErr, IfOk, OnErr, OnOk};
ghost use Rattle.std.specs.Option.{option_map};
ghost use Rattle.key_intervals.specs.declared.TheConstants.{INTERVALS_MAX};
ghost use Rattle.key_intervals.specs.declared.bounds.Bounds.{Bounds};
ghost use Rattle.key_intervals.specs.Division.{bounds_at, lower_of, once_ended, once_split, upper_of, AreDivided};
ghost use Rattle.key_intervals.specs.Index.{AreOrders};
ghost use Rattle.key_intervals.specs.Refusing.{may_cut, split_refusal};

use crate::INTERVALS_MAX;
use crate::bounds::{Bounds, copied_end, ends_after};
use crate::given::{Given, fresh};
use crate::order::Order;
use crate::refusals::SplitRefusal;
use mw_types::{Duplicate, Key, NoMemory};
use std::alloc::Global;

// The part of an interval that may be split, and the part's order after that, or why it may not.
pub(crate) fn split_order(
    alloc: Global,
    injectors: u32,
    all: &[Given],
    orders: &[Order],
    interval: u32,
    cut: &Key,
) -> Result<(u32, Order), SplitRefusal>
    requires divided { AreDivided (length orders.now) all.now }
    requires ordered { AreOrders all.now orders.now }
    ensures there { IfOk result (λ made. made.0 < length orders.now) }
    ensures given { OnOk result (interval < length all.now) }
    ensures ordered { IfOk result (λ made.
        AreOrders (once_split interval cut.now all.now) (slice_set orders.now made.0 made.1)) }
    ensures may { OnOk result (split_refusal injectors all.now interval cut.now ≡ None) }
    ensures refused { IfErr result (λ why. (why ≡ SplitRefusal.NoMemory)
        ⊎ (split_refusal injectors all.now interval cut.now ≡ Some why)) }
{
    let part = part_to_split(injectors, all, interval, cut)?;
    let order = orders[part as usize].split(alloc, interval, all.len() as u32)?;
    Ok((part, order))
}

// The part of an interval that may be split, or why it may not.
fn part_to_split(
    injectors: u32,
    all: &[Given],
    interval: u32,
    cut: &Key,
) -> Result<u32, SplitRefusal>
    ensures part { IfOk result (λ part.
        option_map (λ (b : Bounds). b.part) (bounds_at all.now interval) ≡ Some part) }
    ensures given { OnOk result (interval < length all.now) }
    ensures may { OnOk result (split_refusal injectors all.now interval cut.now ≡ None) }
    ensures refused { IfErr result (λ why.
        split_refusal injectors all.now interval cut.now ≡ Some why) }
{
    let Some(given) = all.get(interval as usize) else {
        return Err(SplitRefusal::NoInterval);
    };
    if !given.live {
        return Err(SplitRefusal::NoInterval);
    }
    if !may_cut(injectors, &given.bounds, cut) {
        return Err(SplitRefusal::BadCut);
    }
    if all.len() + 2 > INTERVALS_MAX {
        return Err(SplitRefusal::NumbersFull);
    }
    Ok(given.bounds.part)
}

// Splits an interval, whose halves get the next numbers, and answers the first.
pub(crate) fn split_in(
    alloc: Global,
    all: &mut Vec<Given>,
    interval: u32,
    cut: &Key,
) -> Result<u32, NoMemory>
    requires there { interval < length all.old.items }
    requires few { length all.old.items ≤ INTERVALS_MAX }
    ensures first { IfOk result (λ first. first ≡ length all.old.items) }
    ensures split { OnOk result (all.new.items ≡ once_split interval cut.now all.old.items) }
    ensures unchanged { OnErr result (all.new.items ≡ all.old.items) }
{
    let first = all.len() as u32;
    all.reserve(2)?;
    let (lower, upper) = halves(alloc, &all[interval as usize].bounds, cut)?;
    all.push_reserved(fresh(lower));
    all.push_reserved(fresh(upper));
    end(all, interval as usize);
    Ok(first)
}

// Ends the interval of a number.
pub(crate) fn end(all: &mut Vec<Given>, interval: usize)
    requires there { interval < length all.old.items }
    ensures ended { all.new.items ≡ once_ended interval all.old.items }
{
    all[interval].live = false;
}

// Whether an interval is a computation's, and a cut leaves keys on both sides.
fn may_cut(injectors: u32, bounds: &Bounds, cut: &Key) -> bool
    ensures { result ≡ may_cut injectors cut.now bounds.now }
{
    injectors <= bounds.part && bounds.from.cmp(cut).is_lt() && ends_after(&bounds.to, cut)
}

// What an interval has below a cut, and from it on.
fn halves(alloc: Global, bounds: &Bounds, cut: &Key) -> Result<(Bounds, Bounds), NoMemory>
    ensures lower { IfOk result (λ two. two.0 ≡ lower_of cut.now bounds.now) }
    ensures upper { IfOk result (λ two. two.1 ≡ upper_of cut.now bounds.now) }
{
    let lower = lower_of(alloc, bounds, cut)?;
    let upper = upper_of(alloc, bounds, cut)?;
    Ok((lower, upper))
}

// What an interval has below a cut.
fn lower_of(alloc: Global, bounds: &Bounds, cut: &Key) -> Result<Bounds, NoMemory>
    ensures { IfOk result (λ b. b ≡ lower_of cut.now bounds.now) }
{
    let from = bounds.from.copy(alloc)?;
    let to = Some(cut.copy(alloc)?);
    Ok(Bounds {
        part: bounds.part,
        from,
        to,
    })
}

// What an interval has from a cut on.
fn upper_of(alloc: Global, bounds: &Bounds, cut: &Key) -> Result<Bounds, NoMemory>
    ensures { IfOk result (λ b. b ≡ upper_of cut.now bounds.now) }
{
    let from = cut.copy(alloc)?;
    let to = copied_end(alloc, &bounds.to)?;
    Ok(Bounds {
        part: bounds.part,
        from,
        to,
    })
}
