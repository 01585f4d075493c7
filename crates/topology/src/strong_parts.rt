//! Which computations stay when the weak ones are taken out, and what each then reads.
//!
//! A file's computations are gone through from the last to the first. When a weak one's turn comes,
//! all that may read its stream has been met, and nothing of what it reads was taken out yet: so
//! each is taken out once.
ghost use Rattle.std.specs.Prelude.{◌≡◌, ◌≤◌, ◌<◌, ◌+◌, ◌^◌, ◌∷◌, nat_le, length, map, IfOk};
ghost use Rattle.topology.specs.Folding.{Strong, Way, way_count, strong_through, strong_as, strong_from, left_of};
ghost use Rattle.topology.specs.Ways.{AllRead, number_behind, with_first, unless_many};

use crate::parts::{ComputationPart, ReadingPart};
use crate::ways::{WayPart, readings_left, straight_ways, ways_without};
use mw_types::{Duplicate, KeyList, Name, NoMemory, Seq};
use std::alloc::Global;
use std::marker::Model;

// A computation that stays, and what has become of its readings so far.
#[derive(Drop)]
pub struct StrongPart<'p> {
    stated: &'p ComputationPart,
    pub ways: Seq<WayPart>,
}

impl<'p> Model for StrongPart<'p> {
    ghost use Rattle.topology.specs.Folding.{Strong};

    ghost Value = { Strong };

    ghost view = { λ part. record { computation = part.stated.now; ways = part.ways } };
}

// ---- one computation more

// A computation that stays, as the file has it.
fn as_stated<'p>(alloc: Global, stated: &'p ComputationPart) -> Result<StrongPart<'p>, NoMemory>
    ensures { IfOk result (λ part. part ≡ strong_as stated.now) }
{
    let ways = straight_ways(alloc, stated.reads())?;
    Ok(StrongPart { stated, ways })
}

// A computation that stays, once this weak one is taken out too.
fn without_one<'p>(
    alloc: Global,
    number: u32,
    gone: &ComputationPart,
    reader: &StrongPart<'p>,
) -> Result<StrongPart<'p>, NoMemory>
    ensures { IfOk result (λ part. part ≡ strong_through number gone.now reader.now) }
{
    let ways = ways_without(alloc, number, gone, reader.ways.as_slice())?;
    let stated = reader.stated;
    Ok(StrongPart { stated, ways })
}

// All that stay, once this weak one is taken out too.
fn all_without<'p>(
    alloc: Global,
    number: u32,
    gone: &ComputationPart,
    readers: &[StrongPart<'p>],
) -> Result<Seq<StrongPart<'p>>, NoMemory>
    ensures { IfOk result (λ parts. parts ≡ map (strong_through number gone.now) readers.now) }
{
    let mut parts = Seq::new(alloc);
    for reader in readers {
        parts.push(without_one(alloc, number, gone, reader)?)?;
    }
    Ok(parts)
}

// What stays of a computation and those behind it, of which this stays.
fn with_first<'p>(
    alloc: Global,
    number: u32,
    first: &'p ComputationPart,
    rest: Seq<StrongPart<'p>>,
) -> Result<Seq<StrongPart<'p>>, NoMemory>
    ensures { IfOk result (λ parts. parts ≡ with_first number first.now rest.entry) }
{
    if first.weak() {
        all_without(alloc, number, first, rest.as_slice())
    } else {
        in_front(alloc, first, rest)
    }
}

// A computation that stays, as the file has it, and behind it what stays of the others.
fn in_front<'p>(
    alloc: Global,
    first: &'p ComputationPart,
    rest: Seq<StrongPart<'p>>,
) -> Result<Seq<StrongPart<'p>>, NoMemory>
    ensures { IfOk result (λ parts. parts ≡ strong_as first.now ∷ rest.entry) }
{
    let mut parts = rest;
    parts.insert(0, as_stated(alloc, first)?)?;
    Ok(parts)
}

// The number of the next weak computation behind one.
fn number_behind(number: u32, one: &ComputationPart) -> u32
    requires { number + 1 < 2 ^ 32 }
    ensures number { result ≡ number_behind number one.now }
    ensures next { result ≤ number + 1 }
{
    if one.weak() { number + 1 } else { number }
}

// ---- all of them

// Whether there are at most so many ways.
fn have_room<'p>(readers: &[StrongPart<'p>], room: usize) -> bool
    ensures { result ≡ nat_le (way_count readers.now) room }
{
    let mut room_left = room;
    for reader in readers {
        let ways = reader.ways.len();
        if room_left < ways {
            return false;
        }
        room_left -= ways;
    }
    true
}

// These, unless they have more than 64 ways.
fn unless_many<'p>(readers: Seq<StrongPart<'p>>) -> Option<Seq<StrongPart<'p>>>
    ensures { result ≡ unless_many readers.entry }
{
    if have_room(readers.as_slice(), 64) {
        return Some(readers);
    }
    None
}

/// What stays of these computations, where this is the number that their first weak one has; None
/// where that reads more than 64 streams.
///
/// It gives up as soon as there are so many, or each weak computation might double what the next
/// has to go through. Nothing is lost by it: as a weak one reads something too, its going never
/// makes readings fewer.
pub fn strong_from<'p>(
    alloc: Global,
    number: u32,
    computations: &'p [ComputationPart],
) -> Result<Option<Seq<StrongPart<'p>>>, NoMemory>
    requires numbers { number + length computations.now < 2 ^ 32 }
    requires reading { AllRead computations.now }
    ensures { IfOk result (λ found. found ≡ unless_many (strong_from number computations.now)) }
{
    let Some((first, rest)) = computations.split_first() else {
        return Ok(Some(Seq::new(alloc)));
    };
    let Some(behind) = strong_from(alloc, number_behind(number, first), rest)? else {
        return Ok(None);
    };
    let all = with_first(alloc, number, first, behind)?;
    Ok(unless_many(all))
}

// ---- as parts of a topology

/// The computations that stay, each with the readings that it has in the end.
pub fn computations_left<'p>(
    alloc: Global,
    readers: &[StrongPart<'p>],
) -> Result<Seq<ComputationPart>, NoMemory>
    ensures { IfOk result (λ parts. parts ≡ map left_of readers.now) }
{
    let mut parts = Seq::new(alloc);
    for reader in readers {
        parts.push(left_of(alloc, reader)?)?;
    }
    Ok(parts)
}

// One of them.
fn left_of<'p>(alloc: Global, reader: &StrongPart<'p>) -> Result<ComputationPart, NoMemory>
    ensures { IfOk result (λ part. part ≡ left_of reader.now) }
{
    let stated = reader.stated;
    let (name, stream) = names_in(alloc, stated)?;
    let (reads, cuts) = lists_in(alloc, stated, reader.ways.as_slice())?;
    Ok(ComputationPart {
        name,
        kind: stated.kind(),
        reads,
        stream,
        cuts,
        weak: stated.weak(),
    })
}

// The name and the stream that the file gives it.
fn names_in(alloc: Global, stated: &ComputationPart) -> Result<(Name, Name), NoMemory>
    ensures name { IfOk result (λ pair. pair.0 ≡ stated.now.name) }
    ensures stream { IfOk result (λ pair. pair.1 ≡ stated.now.stream) }
{
    let name = stated.name.copy(alloc)?;
    Ok((name, stated.stream.copy(alloc)?))
}

// What it reads in the end, and the cuts that the file gives it.
fn lists_in(
    alloc: Global,
    stated: &ComputationPart,
    ways: &[WayPart],
) -> Result<(Seq<ReadingPart>, KeyList), NoMemory>
    ensures reads { IfOk result (λ pair. pair.0 ≡ map (λ (way : Way). way.reading) ways.now) }
    ensures cuts { IfOk result (λ pair. pair.1 ≡ stated.now.cuts) }
{
    let reads = readings_left(alloc, ways)?;
    Ok((reads, stated.cuts().copy(alloc)?))
}
