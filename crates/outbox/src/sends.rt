//! What an entry makes, as messages that are there before the entry has its number.
ghost use Rattle.std.specs.Prelude.{◌≡◌, ◌<◌, ◌≤◌, ◌^◌, ℕ, All, IfOk, OnOk, length, map};
ghost use Rattle.mw_types.specs.declared.TheConstants.{MAX_STAMP};
ghost use Rattle.topology.specs.Shapes.{parts_of};
ghost use Rattle.run_history.specs.Made.{deliveries_made};
ghost use Rattle.outbox.specs.Messages.{IsAddressed, messages_from};
ghost use Rattle.outbox.specs.Outboxes.{numbered};
ghost use Rattle.outbox.specs.WorkSteps.{handler_sends};

use crate::outgoing::Outgoing;
use mw_types::{Delivery, DeliveryList, Duplicate, Effects, NoMemory, Production, RowName};
use run_history::{Case, Made, make};
use std::alloc::Global;
use topology::Topology;

/// What productions of a row become, under the commit number 0: the entry's comes later.
pub fn made(
    alloc: Global,
    topology: &Topology,
    name: &RowName,
    productions: &[Production],
    late: bool,
) -> Result<Vec<Outgoing>, NoMemory>
    requires part { name.now.part < parts_of topology.now }
    requires few { length productions.now ≤ 8 }
    requires stamps { All (λ p. p.stamp ≤ MAX_STAMP) productions.now }
    ensures made { IfOk result (λ made. (commit : ℕ) → map (numbered commit) made.items
        ≡ messages_from name.now
        (deliveries_made topology.now name.now.part productions.now late commit)) }

    // Each goes to a computation's row, whatever the number.
    ensures addressed { OnOk result ((commit : ℕ) → commit < 2 ^ 32 →
        All (IsAddressed topology.now) (messages_from name.now
        (deliveries_made topology.now name.now.part productions.now late commit))) }
{
    let _parts = topology.parts();
    let Made {
        deliveries,
        emissions: _,
    } = make(alloc, topology, name.part, productions, late, 0)?;
    let made = messages_from(alloc, name, deliveries)?;
    Ok(made)
}

/// What a handler's productions become, as messages from its row, under the commit number 0.
pub fn made_by(
    alloc: Global,
    case: &Case,
    name: &RowName,
    effects: &Effects,
    late: bool,
) -> Result<Vec<Outgoing>, NoMemory>
    requires part { name.now.part < parts_of case.now.topology }
    requires few { length effects.now.productions ≤ 8 }
    ensures made { IfOk result (λ made. (commit : ℕ) → map (numbered commit) made.items
        ≡ handler_sends case.now.topology name.now effects.now late commit) }
    ensures addressed { OnOk result ((commit : ℕ) → commit < 2 ^ 32 →
        All (IsAddressed case.now.topology)
        (handler_sends case.now.topology name.now effects.now late commit)) }
{
    let productions = effects.productions.as_slice();
    made(alloc, &case.topology, name, productions, late)
}

// Deliveries as messages from a row.
fn messages_from(
    alloc: Global,
    name: &RowName,
    deliveries: DeliveryList,
) -> Result<Vec<Outgoing>, NoMemory>
    ensures { IfOk result (λ all. all.items ≡ messages_from name.now deliveries) }
{
    let mut all = Vec::new(alloc);
    for delivery in deliveries.into_vec() {
        let sender = name.copy(alloc)?;
        all.push(Outgoing::Deliver { delivery, sender })?;
    }
    Ok(all)
}
