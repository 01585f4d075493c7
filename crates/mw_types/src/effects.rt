//! What a handler leaves.
ghost use Rattle.std.specs.Prelude.{◌≡◌, IfOk};

use crate::memory::{Duplicate, NoMemory};
use crate::record::ProductionList;
use crate::state::State;
use crate::timer::TimerList;
use std::alloc::Global;
use std::marker::Model;

/// The key's new state, the timers that were set, in order, and the records that were produced.
#[derive(Drop)]
pub struct Effects {
    /// The key's state after the handler.
    pub state: State,
    /// The timers that the handler set, in the order of its calls.
    pub timers: TimerList,
    /// The records that the handler produced, in the order of its calls.
    pub productions: ProductionList,
}

impl Model for Effects {
    ghost use Rattle.mw_types.specs.Outcomes.{EffectsView, AreEffects};

    ghost Value = { EffectsView };

    ghost view = { λ e. record { state = e.state; timers = e.timers; productions = e.productions } };

    ghost invariant = { λ e. AreEffects e.state e.timers e.productions };
}

impl Duplicate for Effects {
    fn copy(&self, alloc: Global) -> Result<Effects, NoMemory> {
        let state = self.state.copy(alloc)?;
        let (timers, productions) = copies(alloc, &self.timers, &self.productions)?;
        Ok(Effects {
            state,
            timers,
            productions,
        })
    }
}

// Lists that are equal to these.
fn copies(
    alloc: Global,
    timers: &TimerList,
    productions: &ProductionList,
) -> Result<(TimerList, ProductionList), NoMemory>
    ensures { IfOk result (λ both. both ≡ (timers.now, productions.now)) }
{
    let timers = timers.copy(alloc)?;
    let productions = productions.copy(alloc)?;
    Ok((timers, productions))
}
