//! The intervals of all parts, by number.
ghost use Rattle.std.specs.Prelude.{◌≡◌, ◌≤◌, ◌<◌, ◌⊎◌, ℕ, None, Some, length, map, slice_get, All, IfErr, IfOk, OnErr, OnOk};
ghost use Rattle.mw_types.specs.declared.key.PartCuts.{PartCuts};
ghost use Rattle.key_intervals.specs.Intervals.{bounds_of, AreNumbered, DivideKeys};
ghost use Rattle.key_intervals.specs.Division.{bounds_at, fresh, is_live, once_merged, once_split, HasLive};
ghost use Rattle.key_intervals.specs.Refusing.{merge_refusal, split_refusal};

use crate::INTERVALS_MAX;
use crate::bounds::Bounds;
use crate::given::Given;
use crate::making::push_part;
use crate::merging::{merge_in, merged_order};
use crate::order::{Order, last_begun, put};
use crate::refusals::{MergeRefusal, SplitRefusal};
use crate::splitting::{split_in, split_order};
use mw_types::{Duplicate, Key, NoMemory, PartCuts, RowName};
use std::alloc::Global;
use std::marker::Model;

/// The intervals of all parts. Those of the parts' cuts have the first numbers, in the order of the parts
/// and of the keys, and each split and merge gives the next ones.
#[derive(Drop)]
pub struct Intervals {
    injectors: u32,
    all: Vec<Given>,
    // Of each part the live numbers, in the order of their first keys.
    orders: Vec<Order>,
}

impl Model for Intervals {
    ghost use Rattle.std.specs.Prelude.{length};
    ghost use Rattle.key_intervals.specs.Division.{AreDivided, Division};
    ghost use Rattle.key_intervals.specs.Index.{AreOrders};

    ghost Value = { Division };

    ghost view = { λ i. record {
      parts = length i.orders.items;
      injectors = i.injectors;
      given = i.all.items;
    } };

    ghost invariant = { λ i. AreDivided (length i.orders.items) i.all.items
        × AreOrders i.all.items i.orders.items };
}

impl Intervals {
    /// The intervals of the parts: one of a part without cuts, and one more with each cut. The first
    /// parts are injectors.
    pub fn of(alloc: Global, parts: &[PartCuts], injectors: u32) -> Result<Intervals, NoMemory>
        requires numbered { AreNumbered 0 parts.now }
        requires cuts { All (λ (p : PartCuts). DivideKeys p.cuts) parts.now }
        requires few { length (bounds_of parts.now) ≤ INTERVALS_MAX }
        ensures all { IfOk result (λ i. i.given ≡ map fresh (bounds_of parts.now)) }
        ensures parts { IfOk result (λ i. i.parts ≡ length parts.now) }
        ensures injectors { IfOk result (λ i. i.injectors ≡ injectors) }
    {
        let mut all = Vec::new(alloc);
        let mut orders = Vec::new(alloc);
        for part in parts {
            push_part(alloc, &mut all, &mut orders, part)?;
        }
        Ok(Intervals {
            injectors,
            all,
            orders,
        })
    }

    /// How many numbers were given.
    pub fn count(&self) -> u32
        ensures count { result ≡ length self.now.given }
        ensures few { result ≤ INTERVALS_MAX }
    {
        self.all.len() as u32
    }

    /// The number of the live interval that has a row, of a part that is divided.
    pub fn find(&self, name: &RowName) -> u32
        requires part { name.now.part < self.now.parts }
        ensures found { HasLive self.now.given result name.now }
        ensures only { (other : ℕ) → HasLive self.now.given other name.now → other ≡ result }
    {
        let numbers = self.orders[name.part as usize].numbers();
        let place = last_begun(self.all.as_slice(), numbers, &name.key);
        numbers[place]
    }

    /// Whether a number was given to an interval that has not ended.
    pub fn live(&self, interval: u32) -> bool
        ensures live { result ≡ is_live self.now.given interval }
    {
        match self.all.get(interval as usize) {
            Some(given) => given.live,
            None => false,
        }
    }

    /// The interval with this number, which must have been given: it may have ended.
    pub fn bounds(&self, interval: u32) -> &Bounds
        requires exists { interval < length self.now.given }
        ensures at { bounds_at self.now.given interval ≡ Some result.now }
    {
        &self.all[interval as usize].bounds
    }

    /// Ends an interval and gives the keys below a cut the next number, which is answered, and those from
    /// the cut on the one after it.
    pub fn split(&mut self, alloc: Global, interval: u32, cut: &Key) -> Result<u32, SplitRefusal>
        ensures split { OnOk result
            (self.new ≡ record self.old { given = once_split interval cut.now self.old.given }) }
        ensures first { IfOk result (λ first. first ≡ length self.old.given) }

        // What may not be split is not split, and the first reason against it is told.
        ensures may { OnOk result
            (split_refusal self.old.injectors self.old.given interval cut.now ≡ None) }
        ensures refused { IfErr result (λ why. (why ≡ SplitRefusal.NoMemory)
            ⊎ (split_refusal self.old.injectors self.old.given interval cut.now ≡ Some why)) }
        ensures unchanged { OnErr result (self.new ≡ self.old) }
    {
        let all = self.all.as_slice();
        let orders = self.orders.as_slice();
        let (part, order) = split_order(alloc, self.injectors, all, orders, interval, cut)?;
        let first = split_in(alloc, &mut self.all, interval, cut)?;
        put(&mut self.orders, part, order);
        Ok(first)
    }

    /// Ends two neighbours, the lower one first, and gives what they had together the next number, which
    /// is answered.
    pub fn merge(&mut self, alloc: Global, low: u32, high: u32) -> Result<u32, MergeRefusal>
        ensures merged { OnOk result
            (self.new ≡ record self.old { given = once_merged low high self.old.given }) }
        ensures first { IfOk result (λ first. first ≡ length self.old.given) }

        // What may not be merged is not merged, and the first reason against it is told.
        ensures may { OnOk result (merge_refusal self.old.given low high ≡ None) }
        ensures refused { IfErr result (λ why. (why ≡ MergeRefusal.NoMemory)
            ⊎ (merge_refusal self.old.given low high ≡ Some why)) }
        ensures unchanged { OnErr result (self.new ≡ self.old) }
    {
        let all = self.all.as_slice();
        let orders = self.orders.as_slice();
        let (part, order) = merged_order(alloc, all, orders, low, high)?;
        let first = merge_in(alloc, &mut self.all, low, high)?;
        put(&mut self.orders, part, order);
        Ok(first)
    }
}

impl Duplicate for Intervals {
    fn copy(&self, alloc: Global) -> Result<Intervals, NoMemory> {
        let all = Given::copy_all(self.all.as_slice(), alloc)?;
        let orders = Order::copy_all(self.orders.as_slice(), alloc)?;
        Ok(Intervals {
            injectors: self.injectors,
            all,
            orders,
        })
    }
}
