//! A plan of actions, and how it is read.
ghost use Rattle.std.specs.Prelude.{All, ◌≡◌, ◌<◌, ◌^◌, length, IfErr, IfOk, Ok};
ghost use Rattle.json_reading.specs.Refusals.{IsRefusalOf};
ghost use Rattle.plans.specs.Plans.{IsAction, actions_of};

use crate::action::Action;
use crate::action_lines::ActionReader;
use mw_types::{PlanRefusal, Seq};
use run_history::Case;
use std::alloc::Global;
use std::marker::Model;
use text_lines::read_all;

/// The actions of a plan, in the order of their lines.
#[derive(Drop)]
pub struct Actions {
    actions: Seq<Action>,
}

impl Model for Actions {
    ghost use Rattle.std.specs.Prelude.{List};
    ghost use Rattle.plans.specs.declared.action.Action.{Action};

    ghost Value = { List Action };

    ghost view = { λ plan. plan.actions };
}

impl Actions {
    /// The actions, first to last.
    pub fn actions(&self) -> &[Action]
        ensures actions { result.now ≡ self.now }
    {
        self.actions.as_slice()
    }
}

/// Reads a plan for so many workers and rounds over a case, whose intervals its lines may name.
pub fn read_actions(
    alloc: Global,
    bytes: &[u8],
    case: &Case,
    workers: u32,
    rounds: u32,
) -> Result<Actions, PlanRefusal>
    requires few { length bytes.now < 2 ^ 32 }

    ensures actions { IfOk result
        (λ plan. actions_of case.now.topology workers rounds bytes.now ≡ Ok plan) }
    ensures there { IfOk result (All (IsAction case.now.topology workers rounds)) }
    ensures refused { IfErr result (IsRefusalOf PlanRefusal.NoMemory
        (actions_of case.now.topology workers rounds bytes.now)) }
{
    let reader = ActionReader {
        case,
        workers,
        rounds,
    };
    let actions = read_all(alloc, bytes, &reader)?;
    Ok(Actions { actions })
}
