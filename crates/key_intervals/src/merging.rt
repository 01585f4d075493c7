//! Intervals that are merged.
ghost use Rattle.std.specs.Prelude.{◌≡◌, ◌<◌, ◌≤◌, ◌⊎◌, None, Some, length, slice_set, IfErr, IfOk, OnErr, OnOk};
ghost use Rattle.std.specs.Option.{option_map};
ghost use Rattle.key_intervals.specs.declared.TheConstants.{INTERVALS_MAX};
ghost use Rattle.key_intervals.specs.declared.bounds.Bounds.{Bounds};
ghost use Rattle.key_intervals.specs.Division.{bounds_at, joined, once_merged, AreDivided};
ghost use Rattle.key_intervals.specs.Index.{AreOrders};
ghost use Rattle.key_intervals.specs.Refusing.{ends_at, meets, merge_refusal};

use crate::INTERVALS_MAX;
use crate::bounds::{Bounds, copied_end};
use crate::given::{Given, fresh};
use crate::order::Order;
use crate::refusals::MergeRefusal;
use crate::splitting::end;
use mw_types::{Duplicate, Key, NoMemory};
use std::alloc::Global;

// The part of two intervals that may be merged, and the part's order after that, or why they may not.
pub(crate) fn merged_order(
    alloc: Global,
    all: &[Given],
    orders: &[Order],
    low: u32,
    high: u32,
) -> Result<(u32, Order), MergeRefusal>
    requires divided { AreDivided (length orders.now) all.now }
    requires ordered { AreOrders all.now orders.now }
    ensures there { IfOk result (λ made. made.0 < length orders.now) }
    ensures given { OnOk result ((low < length all.now) × (high < length all.now)) }
    ensures ordered { IfOk result (λ made.
        AreOrders (once_merged low high all.now) (slice_set orders.now made.0 made.1)) }
    ensures may { OnOk result (merge_refusal all.now low high ≡ None) }
    ensures refused { IfErr result (λ why. (why ≡ MergeRefusal.NoMemory)
        ⊎ (merge_refusal all.now low high ≡ Some why)) }
{
    let part = part_to_merge(all, low, high)?;
    let order = orders[part as usize].merged(alloc, low, high, all.len() as u32)?;
    Ok((part, order))
}

// The part of two intervals that may be merged, or why they may not.
fn part_to_merge(all: &[Given], low: u32, high: u32) -> Result<u32, MergeRefusal>
    ensures part { IfOk result (λ part.
        option_map (λ (b : Bounds). b.part) (bounds_at all.now low) ≡ Some part) }
    ensures given { OnOk result ((low < length all.now) × (high < length all.now)) }
    ensures may { OnOk result (merge_refusal all.now low high ≡ None) }
    ensures refused { IfErr result (λ why. merge_refusal all.now low high ≡ Some why) }
{
    let (Some(lower), Some(upper)) = (all.get(low as usize), all.get(high as usize)) else {
        return Err(MergeRefusal::NoInterval);
    };
    if !lower.live || !upper.live {
        return Err(MergeRefusal::NoInterval);
    }
    if !meets(&lower.bounds, &upper.bounds) {
        return Err(MergeRefusal::NotNeighbours);
    }
    if all.len() + 1 > INTERVALS_MAX {
        return Err(MergeRefusal::NumbersFull);
    }
    Ok(lower.bounds.part)
}

// Merges two intervals: what they have together gets the next number, which is answered.
pub(crate) fn merge_in(
    alloc: Global,
    all: &mut Vec<Given>,
    low: u32,
    high: u32,
) -> Result<u32, NoMemory>
    requires low { low < length all.old.items }
    requires high { high < length all.old.items }
    requires few { length all.old.items ≤ INTERVALS_MAX }
    ensures first { IfOk result (λ first. first ≡ length all.old.items) }
    ensures merged { OnOk result (all.new.items ≡ once_merged low high all.old.items) }
    ensures unchanged { OnErr result (all.new.items ≡ all.old.items) }
{
    let first = all.len() as u32;
    all.reserve(1)?;
    let bounds = joined(alloc, &all[low as usize].bounds, &all[high as usize].bounds)?;
    all.push_reserved(fresh(bounds));
    end(all, low as usize);
    end(all, high as usize);
    Ok(first)
}

// Whether two intervals are of one part, and the first ends where the second begins.
fn meets(lower: &Bounds, upper: &Bounds) -> bool
    ensures { result ≡ meets lower.now upper.now }
{
    lower.part == upper.part && ends_at(&lower.to, &upper.from)
}

// Whether an interval that ends there ends at the key.
fn ends_at(to: &Option<Key>, key: &Key) -> bool
    ensures { result ≡ ends_at to.now key.now }
{
    match to {
        Some(end) => end.cmp(key).is_eq(),
        None => false,
    }
}

// What two neighbours have together.
fn joined(alloc: Global, lower: &Bounds, upper: &Bounds) -> Result<Bounds, NoMemory>
    ensures { IfOk result (λ b. b ≡ joined lower.now upper.now) }
{
    let from = lower.from.copy(alloc)?;
    let to = copied_end(alloc, &upper.to)?;
    Ok(Bounds {
        part: lower.part,
        from,
        to,
    })
}
