//! The first timer of an interval that is held.
ghost use Rattle.std.specs.Prelude.{◌≡◌, IfOk, IfSome, IsSome};
ghost use Rattle.holdings.specs.Holding.{held_at};
ghost use Rattle.holdings.specs.Timers.{IsFirstTimer};

use crate::held::Held;
use crate::holdings::Holdings;
use mw_types::{NoMemory, RowName, Timer};
use std::alloc::Global;

/// A timer, with the name of the row that has it.
#[derive(Drop)]
pub struct RowTimer {
    /// The row's name.
    pub name: RowName,
    /// The timer.
    pub timer: Timer,
}

impl Holdings {
    /// The first timer of the rows of an interval that is held, by time, tag and key, or none where
    /// no row has a timer.
    pub fn first_timer(
        &mut self,
        alloc: Global,
        interval: u32,
    ) -> Result<Option<RowTimer>, NoMemory>
        requires there { IsSome (held_at self.old interval) }
        ensures first { IfOk result (λ found.
            IfSome (held_at self.old interval) (λ held. IsFirstTimer held.rows found)) }
        ensures same { self.new ≡ self.old }
    {
        match self.all.get_mut(interval as usize) {
            Some(place) => first_in(place, alloc),
            None => Ok(None),
        }
    }
}

// The first timer of the rows that are held in a place.
fn first_in(place: &mut Option<Held>, alloc: Global) -> Result<Option<RowTimer>, NoMemory>
    ensures first { IfOk result (λ found.
        IfSome place.old (λ held. IsFirstTimer held.rows found)) }
    ensures same { place.new ≡ place.old }
{
    match place {
        Some(held) => held.first_timer(alloc),
        None => Ok(None),
    }
}
