//! A row that is changed where it lies, and what takes a change back.
ghost use Rattle.std.specs.Prelude.{◌≡◌, ◌++◌, ◌≤◌, All, IfSome, OnErr, OnOk, false, length};
ghost use Rattle.std.specs.Option.{option_map, unwrap_or};
ghost use Rattle.std.specs.List.Sorted.{IsStrictlySortedBy};
ghost use Rattle.mw_types.specs.Bounds.{IsWithin};
ghost use Rattle.mw_types.specs.declared.TheConstants.{MAX_STAMP};
ghost use Rattle.row_parts.specs.Changes.{grown, shrunk, with_ids, with_own, without_ids};
ghost use Rattle.row_parts.specs.Contents.{AreSeen, AreTimers, IsId, IsRow, delivery_cmp, is_finished};

use crate::deliveries::{add_deliveries, keep_first};
use crate::ids::{add_id, take_id};
use crate::row::Row;
use mw_types::{DeliveryList, IdList, NoMemory, RecordId, State, TimerList};
use std::alloc::Global;
use std::mem::swap;

/// A state and timers that go into the place of a row's own. Of what is not there the row keeps its own.
#[derive(Drop)]
pub struct Own {
    /// The state.
    pub state: Option<State>,
    /// The timers.
    pub timers: Option<TimerList>,
}

impl Row {
    /// Notes that the row handled an id, if there is one, which is not finished yet, and adds deliveries
    /// that it produced. Refuses where memory ran out, or one of its lists would have 2^32, and leaves the
    /// row as it was.
    pub fn grow(
        &mut self,
        alloc: Global,
        id: Option<RecordId>,
        sent: DeliveryList,
    ) -> Result<(), NoMemory>
        requires id { IfSome id IsId }
        requires new { IfSome id (λ id. is_finished id self.old ≡ false) }
        requires ids { All (λ d. IsId d.id) sent }
        requires stamps { All (λ d. d.item.stamp ≤ MAX_STAMP) sent }
        requires ascending { IsStrictlySortedBy delivery_cmp (self.old.pending ++ sent) }
        ensures ok { OnOk result (self.new ≡ grown id sent self.old) }
        ensures back { OnOk result (shrunk id (length self.old.pending) self.new ≡ self.old) }
        ensures err { OnErr result (self.new ≡ self.old) }
    {
        let count = self.pending.len();
        add_deliveries(alloc, &mut self.pending, sent)?;
        if let Err(NoMemory) = add_ids(&mut self.seen, self.floor, id) {
            keep_first(alloc, &mut self.pending, count);
            return Err(NoMemory);
        }
        Ok(())
    }

    /// Takes a growth back: the row keeps the first so many pending, and has not handled the id.
    pub fn shrink(&mut self, alloc: Global, id: Option<RecordId>, count: usize)
        requires { IsRow (shrunk id count self.old) }
        ensures { self.new ≡ shrunk id count self.old }
    {
        keep_first(alloc, &mut self.pending, count);
        take_ids(&mut self.seen, id);
    }

    /// Puts a state and timers in the place of the row's own, which stand in `own` then. A second exchange
    /// takes the first back.
    pub fn exchange(&mut self, own: &mut Own)
        requires state { IfSome own.old.state IsWithin }
        requires timers { IfSome own.old.timers AreTimers }
        ensures put { self.new ≡ with_own own.old self.old }
        ensures back { with_own own.new self.new ≡ self.old }
        ensures state { IfSome own.new.state IsWithin }
        ensures timers { IfSome own.new.timers AreTimers }
    {
        trade(&mut self.state, &mut own.state);
        trade(&mut self.timers, &mut own.timers);
    }
}

// Puts a value in the place of another, if there is one, which stands in its place then.
fn trade<X>(place: &mut X, other: &mut Option<X>)
    ensures put { place.new ≡ unwrap_or other.old place.old }
    ensures back { other.new ≡ option_map (λ _. place.old) other.old }
{
    if let Some(other) = other {
        swap(place, other);
    }
}

// Adds an id, if there is one.
fn add_ids(ids: &mut IdList, floor: u64, id: Option<RecordId>) -> Result<(), NoMemory>
    requires ids { AreSeen floor ids.old }
    requires id { IfSome id IsId }
    requires kept { IfSome id (λ id. floor ≤ id.commit) }
    ensures ok { OnOk result (ids.new ≡ with_ids id ids.old) }
    ensures err { OnErr result (ids.new ≡ ids.old) }
    ensures ids { AreSeen floor ids.new }
{
    match id {
        Some(id) => add_id(ids, floor, id),
        None => Ok(()),
    }
}

// Takes an id away, if there is one.
fn take_ids(ids: &mut IdList, id: Option<RecordId>)
    ensures { ids.new ≡ without_ids id ids.old }
{
    if let Some(id) = id {
        take_id(ids, id);
    }
}
