//! The row of one key, Akidau et al., VLDB 2013, sections 4.4, 4.6 and 6.1.
ghost use Rattle.std.specs.Prelude.{◌≡◌, ◌↔◌, ◌<◌, ◌≤◌, ◌^◌, ◌++◌, ◌∷◌, [], Bool, false, All, IsTrue, length, max, slice_get, IfOk, OnOk, OnErr};
ghost use Rattle.std.specs.List.{list_any};
ghost use Rattle.std.specs.Option.{is_some};
ghost use Rattle.std.specs.declared.cmp.Ordering.TheVariants.{Less};
ghost use Rattle.mw_types.specs.Bounds.{IsWithin};
ghost use Rattle.row_parts.specs.Contents.{fresh, ArePending, AreSeen, AreTimers, IsId, IsDelivery, cursor_in, found_delivery, is_finished, is_timer, same_id, delivery_cmp, with_timer, without_timer, with_id, without_delivery, ids_from};

use crate::deliveries::{add_delivery, has_delivery, take_delivery};
use crate::ids::{add_id, forget_below, has_id};
use crate::timers::{set_timer, take_timer};
use mw_types::{
    Delivery, DeliveryList, Duplicate, IdList, MAX_STAMP, NoMemory, RecordId, State, Timer,
    TimerList,
};
use std::alloc::Global;
use std::marker::Model;

/// All that is kept for one key of one part.
#[derive(Drop)]
pub struct Row {
    /// The key's state.
    pub state: State,
    /// The timers that are set, ascending by time and tag.
    pub timers: TimerList,
    /// What the row produced and no receiver acknowledged yet, ascending by id.
    pub pending: DeliveryList,
    /// The ids that the row handled, ascending; none is below the floor.
    pub seen: IdList,
    /// The commit number below which every id is finished.
    pub floor: u64,
    /// The commit number of the last entry that wrote the row.
    pub last: u64,
}

impl Model for Row {
    ghost use Rattle.row_parts.specs.Contents.{Contents, IsRow};

    ghost Value = { Contents };

    ghost view = { λ row. record { state = row.state; timers = row.timers; pending = row.pending; seen = row.seen; floor = row.floor; last = row.last } };

    ghost invariant = { λ row. IsRow (record { state = row.state; timers = row.timers; pending = row.pending; seen = row.seen; floor = row.floor; last = row.last }) };
}

impl Row {
    /// The row of a key to which nothing has happened yet.
    pub fn new(alloc: Global, state: State) -> Row
        requires { IsWithin state }
        ensures fresh { result ≡ fresh state }
    {
        Row {
            state,
            timers: TimerList::new(alloc),
            pending: DeliveryList::new(alloc),
            seen: IdList::new(alloc),
            floor: 0,
            last: 0,
        }
    }

    /// What always holds of a row. It does nothing when it runs.
    pub fn sound(&self)
        ensures state { IsWithin self.now.state }
        ensures timers { AreTimers self.now.timers }
        ensures pending { ArePending self.now.pending }
        ensures seen { AreSeen self.now.floor self.now.seen }
        ensures floor { self.now.floor ≤ 2 ^ 32 }
        ensures last { self.now.last < 2 ^ 32 }
    {
        let _floor = self.floor;
    }

    /// How many lines of an injector's file were injected, or 0 where the row is no injector's.
    pub fn cursor(&self) -> u32
        ensures cursor { result ≡ cursor_in self.now.state }
    {
        match &self.state {
            State::Injector { cursor } => *cursor,
            _ => 0,
        }
    }

    /// Sets a timer, whose time is in whole microseconds. A pair that is set already stays one timer,
    /// which is late only where both are. Refuses where memory ran out, or 2^32 - 1 are set.
    pub fn set_timer(&mut self, timer: Timer) -> Result<(), NoMemory>
        requires { timer.time ≤ MAX_STAMP }
        ensures ok { let timers = with_timer timer self.old.timers in
            OnOk result (self.new ≡ record self.old { timers = timers }) }
        ensures err { OnErr result (self.new ≡ self.old) }
    {
        set_timer(&mut self.timers, timer)
    }

    /// The timer that is due first, or none where none is set.
    pub fn least_timer(&self) -> Option<Timer>
        ensures first { result ≡ slice_get self.now.timers 0 }
    {
        self.timers.get(0).copied()
    }

    /// Takes the timer with this tag and time, in whole microseconds, away, and tells whether it was
    /// set.
    pub fn take_timer(&mut self, tag: u64, time: u64) -> bool
        ensures found { result ≡ list_any (is_timer tag time) self.old.timers }
        ensures rest { let timers = without_timer tag time self.old.timers in
            self.new ≡ record self.old { timers = timers } }
    {
        take_timer(&mut self.timers, tag, time)
    }

    /// Whether an id is finished for this row: it is below the floor, or the row handled it.
    pub fn is_finished(&self, id: RecordId) -> bool
        ensures finished { result ≡ is_finished id self.now }
    {
        id.commit < self.floor || has_id(self.seen.as_slice(), id)
    }

    /// Whether the row has so many ids, and one at least, and a floor below this one: then it has ids that
    /// it may forget.
    pub fn has_ids(&self, least: u32, floor: u64) -> bool
        ensures ids { IsTrue result
            ↔ (max 1 least ≤ length self.now.seen) × (self.now.floor < floor) }
    {
        least.max(1) as usize <= self.seen.len() && self.floor < floor
    }

    /// Notes that the row handled an id, which is not finished yet. Refuses where memory ran out, or
    /// 2^32 - 1 are noted.
    pub fn note_handled(&mut self, id: RecordId) -> Result<(), NoMemory>
        requires id { IsId id }
        requires new { is_finished id self.old ≡ false }
        ensures ok { OnOk result (self.new ≡ record self.old { seen = with_id id self.old.seen }) }
        ensures err { OnErr result (self.new ≡ self.old) }
    {
        add_id(&mut self.seen, self.floor, id)
    }

    /// Adds a delivery that the row produced; its id is above those of all that are pending. Refuses
    /// where memory ran out, or 2^32 - 1 are pending.
    pub fn add_pending(&mut self, delivery: Delivery) -> Result<(), NoMemory>
        requires id { IsId delivery.id }
        requires stamp { delivery.item.stamp ≤ MAX_STAMP }
        requires above { All (λ d. delivery_cmp d delivery ≡ Less) self.old.pending }
        ensures ok { let pending = self.old.pending ++ delivery ∷ [] in
            OnOk result (self.new ≡ record self.old { pending = pending }) }
        ensures err { OnErr result (self.new ≡ self.old) }
    {
        add_delivery(&mut self.pending, delivery)
    }

    /// Whether the delivery with this id is pending.
    pub fn is_pending(&self, id: RecordId) -> bool
        ensures pending { result ≡ is_some (found_delivery id self.now.pending) }
    {
        has_delivery(self.pending.as_slice(), id)
    }

    /// Takes the delivery with this id away, since its receiver acknowledged it, and tells whether it was
    /// pending.
    pub fn settle(&mut self, id: RecordId) -> bool
        ensures found { result ≡ list_any (λ d. same_id d.id id) self.old.pending }
        ensures rest { let pending = without_delivery id self.old.pending in
            self.new ≡ record self.old { pending = pending } }
    {
        take_delivery(&mut self.pending, id)
    }

    /// Raises the floor, and forgets the ids below it.
    pub fn purge(&mut self, floor: u64)
        requires rises { self.old.floor ≤ floor }
        requires floor { floor ≤ 2 ^ 32 }
        ensures purged { let seen = ids_from floor self.old.seen in
            self.new ≡ record self.old { seen = seen; floor = floor } }
    {
        forget_below(&mut self.seen, self.floor, floor);
        self.floor = floor;
    }
}

impl Duplicate for Row {
    fn copy(&self, alloc: Global) -> Result<Row, NoMemory> {
        let (state, timers) = own_copies(alloc, &self.state, &self.timers)?;
        let (pending, seen) = record_copies(alloc, &self.pending, &self.seen)?;
        Ok(Row {
            state,
            timers,
            pending,
            seen,
            floor: self.floor,
            last: self.last,
        })
    }
}

// An equal state and equal timers.
fn own_copies(
    alloc: Global,
    state: &State,
    timers: &TimerList,
) -> Result<(State, TimerList), NoMemory>
    ensures { IfOk result (λ both. both ≡ (state.now, timers.now)) }
{
    let state = state.copy(alloc)?;
    let timers = timers.copy(alloc)?;
    Ok((state, timers))
}

// Equal deliveries and equal ids.
fn record_copies(
    alloc: Global,
    pending: &DeliveryList,
    seen: &IdList,
) -> Result<(DeliveryList, IdList), NoMemory>
    ensures { IfOk result (λ both. both ≡ (pending.now, seen.now)) }
{
    let pending = pending.copy(alloc)?;
    let seen = seen.copy(alloc)?;
    Ok((pending, seen))
}
