//! What becomes of readings as weak computations are taken out.
ghost use Rattle.std.specs.Prelude.{◌≡◌, ◌∷◌, ◌++◌, map, nat_eq, IfOk, OnOk};
ghost use Rattle.std.specs.List.{flat_map};
ghost use Rattle.std.specs.Cmp.Lexicographic.{pointwise};
ghost use Rattle.topology.specs.Folding.{Way, way_of, way_past, way_through, passed_from};

use crate::parts::{ComputationPart, ReadingPart};
use mw_types::{Duplicate, NoMemory, NumberList, Seq};
use std::alloc::Global;
use std::marker::Model;

// A reading, and by their numbers the weak computations that its records come through, in that
// order.
#[derive(Drop)]
pub struct WayPart {
    reading: ReadingPart,
    passed: NumberList,
}

impl Model for WayPart {
    ghost use Rattle.topology.specs.Folding.{Way};

    ghost Value = { Way };

    ghost view = { λ way. record { reading = way.reading; passed = way.passed } };
}

// The same numbers in a list of their own.
pub fn numbers_of(alloc: Global, numbers: &[u32]) -> Result<NumberList, NoMemory>
    ensures { IfOk result (λ copied. copied ≡ numbers.now) }
{
    let copied = Vec::from_slice(alloc, numbers)?;
    Ok(Seq::from_vec(copied))
}

impl Duplicate for WayPart {
    fn copy(&self, alloc: Global) -> Result<WayPart, NoMemory> {
        let reading = self.reading.copy(alloc)?;
        let passed = numbers_of(alloc, self.passed.as_slice())?;
        Ok(WayPart { reading, passed })
    }
}

impl WayPart {
    // The way of a reading as the file has it.
    fn straight(alloc: Global, stated: &ReadingPart) -> Result<WayPart, NoMemory>
        ensures { IfOk result (λ way. way ≡ way_of stated.now) }
    {
        let reading = stated.copy(alloc)?;
        let passed = Seq::new(alloc);
        Ok(WayPart { reading, passed })
    }

    // Whether it begins at this stream.
    fn begins_at(&self, stream: &str) -> bool
        ensures { result ≡ pointwise nat_eq self.now.reading.stream stream.now }
    {
        self.reading.stream() == stream
    }

    // What it comes through where it is to begin one weak computation further up. That one stands
    // nearer to the producer than all that it came through so far, hence at the front.
    fn passed_from(&self, alloc: Global, number: u32) -> Result<NumberList, NoMemory>
        ensures { IfOk result (λ passed. passed ≡ number ∷ self.now.passed) }
    {
        let mut passed = numbers_of(alloc, self.passed.as_slice())?;
        passed.insert(0, number)?;
        Ok(passed)
    }

    // The same way from one weak computation further up, at a stream which that reads. It is the
    // reader who extracts a key: a pass hands records on under the keys that they have.
    fn further_up(
        &self,
        alloc: Global,
        number: u32,
        source: &ReadingPart,
    ) -> Result<WayPart, NoMemory>
        ensures { IfOk result (λ way. way ≡ way_past number self.now source.now) }
    {
        let passed = self.passed_from(alloc, number)?;
        let by = self.reading.by;
        let stream = source.stream.copy(alloc)?;
        Ok(WayPart {
            reading: ReadingPart { stream, by },
            passed,
        })
    }
}

/// The ways of a computation before anything is taken out, one for each of its readings.
pub fn straight_ways(alloc: Global, reads: &[ReadingPart]) -> Result<Seq<WayPart>, NoMemory>
    ensures { IfOk result (λ ways. ways ≡ map way_of reads.now) }
{
    let mut ways = Seq::new(alloc);
    for read in reads {
        ways.push(WayPart::straight(alloc, read)?)?;
    }
    Ok(ways)
}

/// The ways of a computation once this weak one is taken out too.
pub fn ways_without(
    alloc: Global,
    number: u32,
    gone: &ComputationPart,
    before: &[WayPart],
) -> Result<Seq<WayPart>, NoMemory>
    ensures { IfOk result (λ ways. ways ≡ flat_map (way_through number gone.now) before.now) }
{
    let mut ways = Seq::new(alloc);
    for way in before {
        add_without(alloc, &mut ways, number, gone, way)?;
    }
    Ok(ways)
}

// Adds what stands for one way then.
fn add_without(
    alloc: Global,
    ways: &mut Seq<WayPart>,
    number: u32,
    gone: &ComputationPart,
    way: &WayPart,
) -> Result<(), NoMemory>
    ensures { OnOk result (ways.new ≡ ways.old ++ way_through number gone.now way.now) }
{
    if way.begins_at(gone.stream.text()) {
        return add_further_up(alloc, ways, number, gone.reads(), way);
    }
    ways.push(way.copy(alloc)?)
}

// Adds a way from each of these streams, which the weak computation reads.
fn add_further_up(
    alloc: Global,
    ways: &mut Seq<WayPart>,
    number: u32,
    sources: &[ReadingPart],
    way: &WayPart,
) -> Result<(), NoMemory>
    ensures { OnOk result (ways.new ≡ ways.old ++ map (way_past number way.now) sources.now) }
{
    for source in sources {
        ways.push(way.further_up(alloc, number, source)?)?;
    }
    Ok(())
}

/// The readings that these ways have become.
pub fn readings_left(alloc: Global, ways: &[WayPart]) -> Result<Seq<ReadingPart>, NoMemory>
    ensures { IfOk result (λ reads. reads ≡ map (λ (way : Way). way.reading) ways.now) }
{
    let mut reads = Seq::new(alloc);
    for way in ways {
        reads.push(way.reading.copy(alloc)?)?;
    }
    Ok(reads)
}

/// Adds what lies on those of these ways that begin at a stream.
pub fn add_passed(
    alloc: Global,
    routes: &mut Seq<NumberList>,
    ways: &[WayPart],
    stream: &str,
) -> Result<(), NoMemory>
    ensures { OnOk result (routes.new ≡ routes.old ++ passed_from stream.now ways.now) }
{
    for way in ways {
        if way.begins_at(stream) {
            routes.push(numbers_of(alloc, way.passed.as_slice())?)?;
        }
    }
    Ok(())
}
