//! What productions become.
ghost use Rattle.std.specs.Prelude.{◌≡◌, ◌<◌, ◌≤◌, ◌^◌, IfOk, length};
ghost use Rattle.topology.specs.Rules.{IsTopology};
ghost use Rattle.topology.specs.Shapes.{parts_of};
ghost use Rattle.run_history.specs.Made.{deliveries_made};

use mw_types::{DeliveryList, NoMemory, Production};
use run_history::{Case, Made, make};
use std::alloc::Global;

// What these productions become.
pub(crate) fn sent(
    alloc: Global,
    case: &Case,
    part: u32,
    productions: &[Production],
    late: bool,
    commit: u64,
) -> Result<DeliveryList, NoMemory>
    requires part { part < parts_of case.now.topology }
    requires few { length productions.now ≤ 8 }
    requires commit { commit < 2 ^ 32 }
    ensures made { IfOk result
        (λ sent. sent ≡ deliveries_made case.now.topology part productions.now late commit) }
    ensures rules { IsTopology case.now.topology }
{
    let _parts = case.topology.parts();
    let made = make(alloc, &case.topology, part, productions, late, commit)?;
    let Made {
        deliveries,
        emissions: _,
    } = made;
    Ok(deliveries)
}
