//! The context in which a handler runs for one cause, Akidau et al., VLDB 2013, section 4.1.
ghost use Rattle.std.specs.Prelude.{◌≡◌, ◌<◌, ◌≤◌, ◌++◌, ◌∷◌, [], length, IfOk, OnErr, OnOk, IsTrue};
ghost use Rattle.std.specs.Borrow.{sem};
ghost use Rattle.mw_types.specs.Bounds.{IsWithin};
ghost use Rattle.computations.specs.Handlers.{OfRecord, OfTimer};
ghost use Rattle.computations.specs.Handlings.{begun_by, effects_made};

use mw_types::{
    Duplicate, Effects, Key, MAX_STAMP, NoMemory, Production, ProductionList, Record, State, Timer,
    TimerList,
};
use std::alloc::Global;
use std::marker::Model;

/// The row's key and state, and the timers and productions that the handler has made so far.
#[derive(Drop)]
pub struct Context {
    key: Key,
    state: State,
    stamp: u64,
    late: bool,
    of_record: bool,
    timers: TimerList,
    productions: ProductionList,
}

impl Model for Context {
    ghost use Rattle.computations.specs.Handlings.{Handling, IsInTime};

    ghost Value = { Handling };

    ghost view = { λ c. record {
      key = c.key;
      state = c.state;
      stamp = c.stamp;
      late = c.late;
      of_record = c.of_record;
      timers = c.timers;
      productions = c.productions;
    } };

    ghost invariant = { λ c. IsInTime c.timers c.productions };
}

impl Context {
    ghost use Rattle.computations.specs.Lending.{LendsState};

    /// A context for a record that a row handles.
    pub fn for_record(
        alloc: Global,
        key: &Key,
        state: &State,
        item: &Record,
    ) -> Result<Context, NoMemory>
        ensures { IfOk result (λ context.
            context ≡ begun_by key.now state.now (OfRecord item.now)) }
    {
        Ok(Context {
            key: key.copy(alloc)?,
            state: state.copy(alloc)?,
            stamp: item.stamp,
            late: item.late,
            of_record: true,
            timers: TimerList::new(alloc),
            productions: ProductionList::new(alloc),
        })
    }

    /// A context for a timer of a row that fires.
    pub fn for_timer(
        alloc: Global,
        key: &Key,
        state: &State,
        timer: &Timer,
    ) -> Result<Context, NoMemory>
        ensures { IfOk result (λ context.
            context ≡ begun_by key.now state.now (OfTimer timer.now)) }
    {
        Ok(Context {
            key: key.copy(alloc)?,
            state: state.copy(alloc)?,
            stamp: timer.time,
            late: timer.late,
            of_record: false,
            timers: TimerList::new(alloc),
            productions: ProductionList::new(alloc),
        })
    }

    /// The key of the row.
    pub fn key(&self) -> &Key
        ensures { result.now ≡ self.now.key }
    {
        &self.key
    }

    /// The state of the row, as the handler has left it so far.
    pub fn state(&self) -> &State
        ensures { result.now ≡ self.now.state }
    {
        &self.state
    }

    /// The state of the row, for the handler to change.
    pub fn state_mut(&mut self) -> &mut State
        ensures* lends { sem 𝓛 (LendsState self.entry result) }
        ensures state { result.now ≡ self.old.state }
    {
        &mut self.state
    }

    /// Sets a timer of the row, which is as late as the record.
    pub fn set_timer(&mut self, tag: u64, time: u64) -> Result<(), NoMemory>
        requires of_record { IsTrue self.old.of_record }
        requires not_before { self.old.stamp ≤ time }
        requires in_time { time ≤ MAX_STAMP }
        requires room { length self.old.timers < 8 }
        ensures set { OnOk result (self.new ≡ record self.old {
          timers = self.old.timers ++ record { tag = tag; time = time; late = self.old.late } ∷ [];
        }) }
        ensures unchanged { OnErr result (self.new ≡ self.old) }
    {
        let late = self.late;
        self.timers.push(Timer { tag, time, late })
    }

    /// Produces a record, which is as late as the cause.
    pub fn produce(
        &mut self,
        alloc: Global,
        key: &Key,
        stamp: u64,
        value: i64,
    ) -> Result<(), NoMemory>
        requires not_before { self.old.stamp ≤ stamp }
        requires in_time { stamp ≤ MAX_STAMP }
        requires room { length self.old.productions < 8 }
        ensures produced { OnOk result (self.new ≡ record self.old {
          productions = self.old.productions
              ++ record { key = key.now; stamp = stamp; value = value } ∷ [];
        }) }
        ensures unchanged { OnErr result (self.new ≡ self.old) }
    {
        let key = key.copy(alloc)?;
        self.productions.push(Production { key, stamp, value })
    }

    /// Produces a record under the row's key, which is as late as the cause.
    pub fn produce_for_row(&mut self, alloc: Global, stamp: u64, value: i64) -> Result<(), NoMemory>
        requires not_before { self.old.stamp ≤ stamp }
        requires in_time { stamp ≤ MAX_STAMP }
        requires room { length self.old.productions < 8 }
        ensures produced { OnOk result (self.new ≡ record self.old {
          productions = self.old.productions
              ++ record { key = self.old.key; stamp = stamp; value = value } ∷ [];
        }) }
        ensures unchanged { OnErr result (self.new ≡ self.old) }
    {
        let key = self.key.copy(alloc)?;
        self.productions.push(Production { key, stamp, value })
    }

    /// What the handler leaves.
    pub fn into_effects(self) -> Effects
        requires { IsWithin self.state }
        ensures { result ≡ effects_made self }
    {
        let Context {
            key: _,
            state,
            stamp: _,
            late: _,
            of_record: _,
            timers,
            productions,
        } = self;
        Effects {
            state,
            timers,
            productions,
        }
    }
}
