//! What a row keeps for its key, Akidau et al., VLDB 2013, section 4.4.
ghost use Rattle.std.specs.Prelude.{◌≡◌, IfOk};
ghost use Rattle.mw_types.specs.declared.state.State.TheVariants.{Count, Spike};

use crate::memory::{Duplicate, NoMemory};
use crate::seq::Seq;
use crate::shared_list::SharedList;
use std::alloc::Global;

/// A window that is open, and how many records it has.
#[derive(Clone, Copy, PartialEq, Eq)]
pub struct Window {
    /// The first timestamp after the window, in whole microseconds.
    pub end: u64,
    /// How many records it has; the count stays at 2^63 - 1 once there.
    pub count: u64,
}

/// A list of windows.
pub type WindowList = SharedList<Window>;

impl Duplicate for Window {
    fn copy(&self, _alloc: Global) -> Result<Window, NoMemory> {
        Ok(*self)
    }
}

/// A total that waits for its timer.
#[derive(Clone, Copy, PartialEq, Eq)]
pub struct HeldTotal {
    /// The timestamp of the record that brought it, in whole microseconds.
    pub stamp: u64,
    /// The total.
    pub value: i64,
}

/// A list of held totals.
pub type HeldList = SharedList<HeldTotal>;

/// A list of values.
pub type ValueList = Seq<i64>;

impl Duplicate for HeldTotal {
    fn copy(&self, _alloc: Global) -> Result<HeldTotal, NoMemory> {
        Ok(*self)
    }
}

/// The state of a row, by what its part is.
#[derive(Drop, PartialEq, Eq)]
pub enum State {
    /// Of an injector.
    Injector {
        /// How many record lines were injected.
        cursor: u32,
    },
    /// Of a count.
    Count {
        /// How many late records came.
        late: u64,
        /// The open windows, ascending by end.
        windows: WindowList,
    },
    /// Of a spike.
    Spike {
        /// How many late records came.
        late: u64,
        /// The totals that wait for their timers, ascending by timestamp.
        held: HeldList,
        /// The last totals whose timers fired, oldest first.
        known: ValueList,
    },
    /// Of a pass.
    Pass {
        /// How many late records came.
        late: u64,
    },
}

impl Duplicate for State {
    fn copy(&self, alloc: Global) -> Result<State, NoMemory> {
        match self {
            State::Injector { cursor } => Ok(State::Injector { cursor: *cursor }),
            State::Count { late, windows } => copied_count(alloc, *late, windows),
            State::Spike { late, held, known } => copied_spike(alloc, *late, held, known),
            State::Pass { late } => Ok(State::Pass { late: *late }),
        }
    }
}

// A count's state, with equal windows.
fn copied_count(alloc: Global, late: u64, windows: &WindowList) -> Result<State, NoMemory>
    ensures { IfOk result (λ state. state ≡ Count late windows.now) }
{
    let windows = windows.copy(alloc)?;
    Ok(State::Count { late, windows })
}

// A spike's state, with equal totals and values.
fn copied_spike(
    alloc: Global,
    late: u64,
    held: &HeldList,
    known: &ValueList,
) -> Result<State, NoMemory>
    ensures { IfOk result (λ state. state ≡ Spike late held.now known.now) }
{
    let held = held.copy(alloc)?;
    let known = known.copy(alloc)?;
    Ok(State::Spike { late, held, known })
}
