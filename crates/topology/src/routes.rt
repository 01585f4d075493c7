//! Which weak computations a record comes through on its way.
ghost use Rattle.std.specs.Prelude.{◌≡◌, ◌<◌, ◌^◌, length, IfOk};
ghost use Rattle.topology.specs.Kept.{by_part};
ghost use Rattle.topology.specs.Shapes.{parts_of, stream_of};
ghost use Rattle.topology.specs.Folding.{routes_to, weak_count, route_in};

use crate::parts::{ComputationPart, Parts};
use crate::strong_parts::StrongPart;
use crate::topology::Topology;
use crate::ways::{add_passed, numbers_of};
use mw_types::{Duplicate, NoMemory, NumberList, Seq};
use std::alloc::Global;
use std::marker::Model;

/// What was taken out between the parts of a topology: for each part that stayed, and each consumer
/// that it then has, the weak computations that its records come through.
///
/// These have numbers of their own, from 0 on as they come in the file, and none among the parts.
#[derive(Drop)]
pub struct Routes {
    by_part: Seq<Seq<NumberList>>,
    weaks: u32,
}

impl Model for Routes {
    ghost use Rattle.topology.specs.Folding.{RoutesView};

    ghost Value = { RoutesView };

    ghost view = { λ routes. record { by_part = routes.by_part; weaks = routes.weaks } };
}

impl Duplicate for Routes {
    fn copy(&self, alloc: Global) -> Result<Routes, NoMemory> {
        let by_part = lists_of_routes(alloc, self.by_part.as_slice())?;
        let weaks = self.weaks;
        Ok(Routes { by_part, weaks })
    }
}

// The same routes of all parts in a list of their own.
fn lists_of_routes(
    alloc: Global,
    by_part: &[Seq<NumberList>],
) -> Result<Seq<Seq<NumberList>>, NoMemory>
    ensures { IfOk result (λ copied. copied ≡ by_part.now) }
{
    let mut copied = Seq::new(alloc);
    for routes in by_part {
        copied.push(list_of_routes(alloc, routes.as_slice())?)?;
    }
    Ok(copied)
}

// The same routes of one part.
fn list_of_routes(alloc: Global, routes: &[NumberList]) -> Result<Seq<NumberList>, NoMemory>
    ensures { IfOk result (λ copied. copied ≡ routes.now) }
{
    let mut copied = Seq::new(alloc);
    for route in routes {
        copied.push(numbers_of(alloc, route.as_slice())?)?;
    }
    Ok(copied)
}

impl Routes {
    // The routes between the parts of this topology, which are those that stay of all these parts.
    pub(crate) fn of<'p>(
        alloc: Global,
        topology: &Topology,
        readers: &[StrongPart<'p>],
        all: &Parts,
    ) -> Result<Routes, NoMemory>
        requires { parts_of all.now < 2 ^ 32 }
        ensures by_part { IfOk result (λ routes. routes.by_part ≡ by_part (λ shape number.
            routes_to readers.now (stream_of shape number)) topology.now) }
        ensures weaks { IfOk result (λ routes. routes.weaks ≡ weak_count all.now.computations) }
    {
        let by_part = routes_of_parts(alloc, topology, readers)?;
        let weaks = weak_count(all.computations());
        Ok(Routes { by_part, weaks })
    }

    /// The weak computations that a record comes through, the nearest to its producer first; word
    /// of the record comes back through the same ones, from the last to the first.
    ///
    /// `part` is who sent the record, and `index` stands in its id. A part hands the records of an
    /// entry to its consumers in turn, so a record's consumer is the one at `index` modulo their
    /// number. A part that has none has an empty route.
    pub fn route(&self, part: u32, index: u32) -> &[u32]
        requires part { part < length self.now.by_part }
        ensures route { result.now ≡ route_in self.now part index }
    {
        let to_consumers = self.by_part.as_slice()[part as usize].as_slice();
        match to_consumers.len() {
            0 => &[],
            consumers => to_consumers[index as usize % consumers].as_slice(),
        }
    }

    /// How many weak computations were taken out. Each of their numbers is smaller.
    pub fn weaks(&self) -> u32
        ensures weaks { result ≡ self.now.weaks }
    {
        self.weaks
    }
}

// How many of these computations are weak.
fn weak_count(all: &[ComputationPart]) -> u32
    requires { length all.now < 2 ^ 32 }
    ensures { result ≡ weak_count all.now }
{
    all.iter().filter(|one| one.weak()).count() as u32
}

// For each part, what lies before its consumers.
fn routes_of_parts<'p>(
    alloc: Global,
    topology: &Topology,
    readers: &[StrongPart<'p>],
) -> Result<Seq<Seq<NumberList>>, NoMemory>
    ensures { IfOk result (λ found. found ≡ by_part (λ shape number.
        routes_to readers.now (stream_of shape number)) topology.now) }
{
    let mut by_part = Seq::new(alloc);
    for number in 0..topology.parts() {
        by_part.push(routes_from(alloc, topology.stream(number), readers)?)?;
    }
    Ok(by_part)
}

// What lies between a stream and each of its consumers.
fn routes_from<'p>(
    alloc: Global,
    stream: &str,
    readers: &[StrongPart<'p>],
) -> Result<Seq<NumberList>, NoMemory>
    ensures { IfOk result (λ routes. routes ≡ routes_to readers.now stream.now) }
{
    let mut routes = Seq::new(alloc);
    for reader in readers {
        add_passed(alloc, &mut routes, reader.ways.as_slice(), stream)?;
    }
    Ok(routes)
}
