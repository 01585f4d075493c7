//! Taking the weak computations out of a topology.
ghost use Rattle.std.specs.Prelude.{◌≡◌, ◌<◌, ◌^◌, IfOk};
ghost use Rattle.topology.specs.Shapes.{parts_of};
ghost use Rattle.topology.specs.Rules.{IsTopology};
ghost use Rattle.topology.specs.Folding.{is_read, are_weak_read, is_foldable, strong_from, folded, routes_in};
ghost use Rattle.topology.specs.Ways.{AllRead};

use crate::parts::{ComputationPart, Parts};
use crate::routes::Routes;
use crate::strong_parts::{StrongPart, computations_left, strong_from};
use crate::topology::Topology;
use crate::wiring::are_reading;
use mw_types::{Duplicate, NoMemory};
use std::alloc::Global;

/// A topology of which the weak computations were taken out, and where they were.
#[derive(Drop)]
pub struct Folded {
    /// The parts that stay, which is what a run works on.
    pub topology: Topology,
    /// What stood between them.
    pub routes: Routes,
}

// ---- whether they may be taken out

// Whether one of these computations reads a stream.
fn is_read(readers: &[ComputationPart], stream: &str) -> bool
    ensures { result ≡ is_read readers.now stream.now }
{
    readers
        .iter()
        .any(|reader| are_reading(reader.reads(), stream))
}

// Whether each weak one among these has a reader.
fn are_weak_read(all: &[ComputationPart]) -> bool
    ensures { result ≡ are_weak_read all.now }
{
    all.iter()
        .all(|one| !one.weak() || is_read(all, one.stream.text()))
}

/// Whether they may all be taken out: each has a reader, and then there are no more than 64
/// readings.
pub fn is_foldable(alloc: Global, parts: &Parts) -> Result<bool, NoMemory>
    requires numbers { parts_of parts.now < 2 ^ 32 }
    requires reading { AllRead parts.now.computations }
    ensures { IfOk result (λ answer. answer ≡ is_foldable parts.now) }
{
    if are_weak_read(parts.computations()) {
        let stay = strong_from(alloc, 0, parts.computations())?;
        return Ok(stay.is_some());
    }
    Ok(false)
}

// ---- what stays

/// The topology without them, and where they were.
pub fn fold_parts(alloc: Global, parts: &Parts) -> Result<Folded, NoMemory>
    requires { IsTopology parts.now }
    ensures topology { IfOk result (λ made. made.topology ≡ folded parts.now) }
    ensures routes { IfOk result (λ made. made.routes ≡ routes_in parts.now) }
{
    // A topology is one only where they may be taken out.
    match strong_from(alloc, 0, parts.computations())? {
        Some(readers) => fold_to(alloc, parts, readers.as_slice()),
        None => unreachable!(),
    }
}

// The same, where it is known which computations stay.
fn fold_to<'p>(alloc: Global, parts: &Parts, readers: &[StrongPart<'p>]) -> Result<Folded, NoMemory>
    requires rules { IsTopology parts.now }
    requires stay { readers.now ≡ strong_from 0 parts.now.computations }
    ensures topology { IfOk result (λ made. made.topology ≡ folded parts.now) }
    ensures routes { IfOk result (λ made. made.routes ≡ routes_in parts.now) }
{
    let topology = topology_left(alloc, parts, readers)?;
    let routes = Routes::of(alloc, &topology, readers, parts)?;
    Ok(Folded { topology, routes })
}

// The topology of the computations that stay.
fn topology_left<'p>(
    alloc: Global,
    parts: &Parts,
    readers: &[StrongPart<'p>],
) -> Result<Topology, NoMemory>
    requires rules { IsTopology parts.now }
    requires stay { readers.now ≡ strong_from 0 parts.now.computations }
    ensures { IfOk result (λ topology. topology ≡ folded parts.now) }
{
    let left = parts_left(alloc, parts, readers)?;
    Topology::of(alloc, left)
}

// The injectors, and the computations that stay.
fn parts_left<'p>(
    alloc: Global,
    parts: &Parts,
    readers: &[StrongPart<'p>],
) -> Result<Parts, NoMemory>
    requires { readers.now ≡ strong_from 0 parts.now.computations }
    ensures { IfOk result (λ left. left ≡ folded parts.now) }
{
    let injectors = parts.injectors.copy(alloc)?;
    let computations = computations_left(alloc, readers)?;
    Ok(Parts {
        injectors,
        computations,
    })
}
