//! A schedule, and how it is read.
ghost use Rattle.std.specs.Prelude.{All, ◌≡◌, ◌<◌, ◌^◌, length, IfErr, IfOk, Ok};
ghost use Rattle.json_reading.specs.Refusals.{IsRefusalOf};
ghost use Rattle.plans.specs.Steps.{IsStep};
ghost use Rattle.plans.specs.Schedules.{schedule_of};

use crate::step::Step;
use crate::step_lines::StepReader;
use mw_types::{PlanRefusal, Seq};
use run_history::Case;
use std::alloc::Global;
use std::marker::Model;
use text_lines::read_all;

/// The steps of a script, in the order of their lines.
#[derive(Drop)]
pub struct Schedule {
    steps: Seq<Step>,
}

impl Model for Schedule {
    ghost use Rattle.std.specs.Prelude.{List};
    ghost use Rattle.plans.specs.declared.step.Step.{Step};

    ghost Value = { List Step };

    ghost view = { λ schedule. schedule.steps };
}

impl Schedule {
    /// The steps, first to last.
    pub fn steps(&self) -> &[Step]
        ensures steps { result.now ≡ self.now }
    {
        self.steps.as_slice()
    }
}

/// Reads a schedule. Its lines may name the intervals and the parts of a case, and so many relays:
/// one for each weak computation that was taken out of the case's topology.
pub fn read_schedule(
    alloc: Global,
    bytes: &[u8],
    case: &Case,
    weaks: u32,
) -> Result<Schedule, PlanRefusal>
    requires few { length bytes.now < 2 ^ 32 }

    ensures steps { IfOk result
        (λ steps. schedule_of case.now.topology weaks bytes.now ≡ Ok steps) }
    ensures there { IfOk result (All (IsStep case.now.topology weaks)) }
    ensures refused { IfErr result
        (IsRefusalOf PlanRefusal.NoMemory (schedule_of case.now.topology weaks bytes.now)) }
{
    let by = StepReader { case, weaks };
    let steps = read_all(alloc, bytes, &by)?;
    Ok(Schedule { steps })
}
