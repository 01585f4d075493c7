//! What a history emitted.
ghost use Rattle.std.specs.Prelude.{◌≡◌, ◌<◌, All, IfOk};
ghost use Rattle.topology.specs.Shapes.{parts_of};
ghost use Rattle.run_history.specs.Runs.{run_of};
ghost use Rattle.run_history.specs.Printing.{IsPrintable};

use crate::case::Case;
use crate::emitter::Emitter;
use crate::history::History;
use mw_types::{EmissionList, NoMemory, Seq};
use std::alloc::Global;
use topology::Topology;

/// The records that a history published in streams that nothing reads, in the order of its entries.
pub fn emissions(alloc: Global, case: &Case, history: &History) -> Result<EmissionList, NoMemory>
    requires printable { IsPrintable case.now.topology history.now }

    ensures emitted { IfOk result (λ all. all ≡ (run_of case.now.topology history.now).emissions) }
    ensures parts { IfOk result (λ all. All (λ e. e.part < parts_of case.now.topology) all) }
{
    emitted(alloc, &case.topology, history)
}

// The emissions of all entries.
fn emitted(alloc: Global, topology: &Topology, history: &History) -> Result<EmissionList, NoMemory>
    requires { IsPrintable topology.now history.now }
    ensures emitted { IfOk result (λ all. all ≡ (run_of topology.now history.now).emissions) }
    ensures parts { IfOk result (λ all. All (λ e. e.part < parts_of topology.now) all) }
{
    let mut emitter = Emitter::new(alloc);
    let mut emissions = Seq::new(alloc);
    for commit in 0..history.len() {
        let entry = history.at(commit);
        emitter.follow(alloc, topology, &entry, commit as u64, &mut emissions)?;
    }
    Ok(emissions)
}
