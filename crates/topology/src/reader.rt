//! Which bytes are a topology file.
ghost use Rattle.std.specs.Prelude.{◌≡◌, IfErr, IfOk, Ok};
ghost use Rattle.json_reading.specs.Refusals.{IsRefusalOf};
ghost use Rattle.topology.specs.FileRules.{checked, topology_of};
ghost use Rattle.topology.specs.Answers.{IsFull};

use crate::file_parts::{FileParts, parts_in};
use crate::file_rules::check;
use crate::folding::is_foldable;
use crate::grammar::shape_in;
use crate::refusal::{ShapeRefusal, TopologyRefusal};
use crate::topology::Topology;
use json_reading::json_of;
use std::alloc::Global;

// The parts that a file states, whatever its rules say of them.
fn file_of(alloc: Global, bytes: &[u8]) -> Result<FileParts, TopologyRefusal>
    ensures file { IfOk result (λ file. topology_of bytes.now ≡ checked file) }
    ensures full { IfOk result IsFull }
    ensures refused { IfErr result (IsRefusalOf TopologyRefusal.NoMemory (topology_of bytes.now)) }
{
    let Some(value) = json_of(alloc, bytes)? else {
        return Err(TopologyRefusal::NotJson);
    };
    match shape_in(alloc, &value) {
        Ok(file) => Ok(file),
        Err(ShapeRefusal::BadShape) => Err(TopologyRefusal::BadShape),
        Err(ShapeRefusal::NoMemory) => Err(TopologyRefusal::NoMemory),
    }
}

// The topology of these parts, if they keep the rules.
fn topology_in(alloc: Global, file: &FileParts) -> Result<Topology, TopologyRefusal>
    requires { IsFull file.now }

    ensures topology { IfOk result (λ topology. checked file.now ≡ Ok topology) }
    ensures refused { IfErr result (IsRefusalOf TopologyRefusal.NoMemory (checked file.now)) }
{
    check(alloc, file)?;
    let parts = parts_in(alloc, file)?;
    if is_foldable(alloc, &parts)? {
        return Ok(Topology::of(alloc, parts)?);
    }
    drop(parts);
    Err(TopologyRefusal::BadWeak)
}

/// Reads a topology file. Each rule is tried on the whole file before the next.
pub fn read(alloc: Global, bytes: &[u8]) -> Result<Topology, TopologyRefusal>
    ensures topology { IfOk result (λ topology. topology_of bytes.now ≡ Ok topology) }
    ensures refused { IfErr result (IsRefusalOf TopologyRefusal.NoMemory (topology_of bytes.now)) }
{
    let file = file_of(alloc, bytes)?;
    topology_in(alloc, &file)
}
