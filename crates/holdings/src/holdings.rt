//! What a worker holds of each interval.
ghost use Rattle.std.specs.Prelude.{◌≡◌, ◌<◌, ℕ, [], IfOk, IfSome, IsSome, None, OnErr, OnOk, Some, length, option_copied, slice_set};
ghost use Rattle.std.specs.List.Sorted.{IsStrictlySortedBy};
ghost use Rattle.std.specs.Option.{option_map};
ghost use Rattle.std.specs.Map.{keys_of};
ghost use Rattle.mw_types.specs.Orders.{row_cmp};
ghost use Rattle.run_history.specs.Cases.{CaseShape};
ghost use Rattle.book.specs.Desks.{DeskView};
ghost use Rattle.holdings.specs.Holding.{AreAllHeld, HeldView, KeepsOthers, held_at};
ghost use Rattle.holdings.specs.Steps.{IsReady, KeepsAll, with_cached};

use crate::held::Held;
use mw_types::{NoMemory, RowName};
use run_history::Case;
use std::alloc::Global;
use std::marker::Model;
use std::mem::replace;

/// What a worker holds of each interval, by the interval's number.
#[derive(Drop)]
pub struct Holdings {
    pub(crate) all: Vec<Option<Held>>,
}

impl Model for Holdings {
    ghost use Rattle.std.specs.Prelude.{List, Option};
    ghost use Rattle.holdings.specs.Holding.{HeldView};

    ghost Value = { List (Option HeldView) };

    ghost view = { λ holdings. holdings.all.items };
}

impl Holdings {
    /// Nothing is held, which takes no memory.
    pub fn new(alloc: Global) -> Holdings
        ensures none { result ≡ [] }
        ensures fits { (case : CaseShape) (desk : DeskView) → AreAllHeld case desk result }
    {
        Holdings {
            all: Vec::new(alloc),
        }
    }

    /// What is held of an interval.
    pub fn get(&self, interval: u32) -> Option<&Held>
        ensures held { option_copied result ≡ held_at self.now interval }
    {
        match self.all.get(interval as usize) {
            Some(Some(held)) => Some(held),
            _ => None,
        }
    }

    /// Lets go of all that is held, as in a crash.
    pub fn clear(&mut self)
        ensures none { self.new ≡ [] }
        ensures fits { (case : CaseShape) (desk : DeskView) → AreAllHeld case desk self.new }
    {
        self.all.clear();
    }

    /// Lets go of what is held of an interval, as after a claim that has overtaken its lease.
    pub fn drop_lease(&mut self, interval: u32)
        ensures gone { held_at self.new interval ≡ None }
        ensures others { KeepsOthers interval self.old self.new }
        ensures fits { (case : CaseShape) (desk : DeskView) → AreAllHeld case desk self.old →
            AreAllHeld case desk self.new }
    {
        take_in(&mut self.all, interval as usize);
    }

    // Sees to it that there is a place for an interval.
    pub(crate) fn make_room(&mut self, interval: u32) -> Result<(), NoMemory>
        ensures room { OnOk result (interval < length self.new) }
        ensures same { KeepsAll self.old self.new }
    {
        for _ in self.all.len()..(interval as usize + 1) {
            self.all.push(None)?;
        }
        Ok(())
    }

    // Puts what is held of an interval in its place.
    pub(crate) fn hold(&mut self, interval: u32, held: Held)
        ensures { self.new ≡ slice_set self.old interval (Some held) }
    {
        if let Some(place) = self.all.get_mut(interval as usize) {
            hold_at(place, held);
        }
    }

    // Sees to it that a row of an interval that is held is cached, for a write.
    pub(crate) fn ready(
        &mut self,
        alloc: Global,
        case: &Case,
        interval: u32,
        name: &RowName,
    ) -> Result<(), NoMemory>
        requires there { IsSome (held_at self.old interval) }
        requires ordered { (held : HeldView) → held_at self.old interval ≡ Some held →
            IsStrictlySortedBy row_cmp (keys_of held.rows) }
        ensures ready { OnOk result
            (IsReady case.now.topology interval name.now self.old self.new) }
        ensures same { OnErr result (KeepsAll self.old self.new) }
    {
        match self.all.get_mut(interval as usize) {
            Some(place) => cache_in(place, alloc, case, name),
            None => Ok(()),
        }
    }

    // What is held of an interval.
    pub(crate) fn held(&self, interval: u32) -> &Held
        requires there { IsSome (held_at self.now interval) }
        ensures held { held_at self.now interval ≡ Some result.now }
    {
        self.get(interval).unwrap()
    }
}

// Sees to it that a row is cached in a place where something is held.
fn cache_in(
    place: &mut Option<Held>,
    alloc: Global,
    case: &Case,
    name: &RowName,
) -> Result<(), NoMemory>
    requires ordered { IfSome place.old (λ held. IsStrictlySortedBy row_cmp (keys_of held.rows)) }
    ensures there { OnOk result
        (place.new ≡ option_map (with_cached case.now.topology name.now) place.old) }
    ensures unchanged { OnErr result (place.new ≡ place.old) }
{
    match place {
        Some(held) => held.cache(alloc, case, name),
        None => Ok(()),
    }
}

// Takes the value out of a place.
fn take_in(all: &mut Vec<Option<Held>>, at: usize) -> Option<Held>
    ensures taken { result ≡ held_at all.old.items at }
    ensures gone { all.new.items ≡ slice_set all.old.items at None }
{
    match all.get_mut(at) {
        Some(place) => replace(place, None),
        None => None,
    }
}

// Puts a value in a place.
fn hold_at(place: &mut Option<Held>, held: Held)
    ensures { place.new ≡ Some held }
{
    *place = Some(held);
}
