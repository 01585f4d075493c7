//! Scripts that are run, step by step.
ghost use Rattle.std.specs.Prelude.{◌≡◌, ◌<◌, ◌≤◌, All, Err, IfErr, IfSome, OnOk, length};
ghost use Rattle.std.specs.Option.{is_some};
ghost use Rattle.mw_types.specs.Causes.{Rose};
ghost use Rattle.run_history.specs.Fences.{Begins};
ghost use Rattle.book.specs.DeskReasons.{IsDamageOf};
ghost use Rattle.book.specs.OwnDesks.{own_view};
ghost use Rattle.node.specs.Answers.{refusal_of};
ghost use Rattle.world.specs.scripts.Acts.{world_after};
ghost use Rattle.plans.specs.Steps.{IsStep};
ghost use Rattle.world.specs.scripts.WorldStates.{world_of};

use crate::scripts::world::World;
use computations::Computation;
use node::NodeFault;
use plans::Step;
use row_keeper::Keeper;
use std::alloc::Global;

/// Does the steps of a script, one after another, until one ends with a fault. What they answer is
/// dropped.
pub fn run_script<'a, K: Keeper, C: Computation + Drop>(
    alloc: Global,
    world: &mut World<'a, K, C>,
    steps: &[Step],
) -> Result<(), NodeFault>
    requires steps { All (IsStep world.old.book.case.topology world.old.routes.weaks) steps.now }

    ensures case { world.new.book.case ≡ world.old.book.case }
    ensures routes { world.new.routes ≡ world.old.routes }
    ensures limit { world.new.book.limit ≡ world.old.book.limit }
    ensures tells { is_some world.new.book.rows ≡ is_some world.old.book.rows }
    ensures grown { Begins world.old.book.history world.new.book.history }
    ensures faults { world.old.book.faults ≤ world.new.book.faults }

    // Where a contract can see the keeper's rows the history begins what the script writes, and after
    // Ok the world is the one that the script leaves.
    ensures begun { IfSome world.old.book.rows (λ _. Begins world.new.book.history
        (world_after world.old.book.case (world_of world.old) steps.now).history) }
    ensures done { OnOk result (IfSome world.old.book.rows (λ _. world_of world.new
        ≡ world_after world.old.book.case (world_of world.old) steps.now)) }

    ensures keeper_fault { result ≡ Err NodeFault.KeeperFault →
        Rose world.old.book.faults world.new.book.faults }
    ensures full { result ≡ Err NodeFault.HistoryFull →
        length world.new.book.history ≡ world.new.book.limit }

    // Where a contract can see the keeper's rows, it is full only where the script writes more.
    ensures more { result ≡ Err NodeFault.HistoryFull → IfSome world.old.book.rows (λ _.
        length world.new.book.history
        < length (world_after world.old.book.case (world_of world.old) steps.now).history) }
    ensures damaged { IfErr result (λ why.
        IsDamageOf (own_view world.new.book) (refusal_of why)) }
{
    for step in steps {
        world.step(alloc, step)?;
    }
    Ok(())
}
