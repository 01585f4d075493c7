//! Who reads which stream: the lists of a topology that its parts determine.
ghost use Rattle.std.specs.Prelude.{◌≡◌, ◌++◌, ◌+◌, ◌<◌, ◌^◌, length, map, filter, nat_eq, if◌then◌else◌, Some, None, IfOk, OnOk, ℕ, List};
ghost use Rattle.std.specs.List.{list_any, filter_map, flat_map, enumerate_from};
ghost use Rattle.std.specs.Cmp.Lexicographic.{pointwise};
ghost use Rattle.topology.specs.Shapes.{Reading, parts_of, streams_of, injectors_of, subscriptions_to, consumers_of, reads_stream, feeds_of};
ghost use Rattle.topology.specs.Folding.{are_reading};
ghost use Rattle.topology.specs.Kept.{numbers_from, subscriptions_by, subscriptions_in, by_part};

use crate::parts::{Parts, ReadingPart};
use crate::publishers::streams_in;
use crate::subscription::{By, Subscription};
use mw_types::{Name, NoMemory, NumberList, Seq};
use std::alloc::Global;

/// The subscriptions to one stream.
pub type SubscriptionList = Seq<Subscription>;

/// Of each part by number its stream, the subscriptions to that, and the parts that it reads.
pub fn wires_in(
    alloc: Global,
    parts: &Parts,
) -> Result<(Seq<Name>, Seq<SubscriptionList>, Seq<NumberList>), NoMemory>
    requires { parts_of parts.now < 2 ^ 32 }
    ensures streams { IfOk result (λ wires. wires.0 ≡ streams_of parts.now) }
    ensures consumers { IfOk result (λ wires. wires.1 ≡ by_part consumers_of parts.now) }
    ensures feeds { IfOk result (λ wires. wires.2 ≡ by_part feeds_of parts.now) }
{
    let streams = streams_in(alloc, parts.injectors(), parts.computations())?;
    let consumers = consumers_in(alloc, parts, streams.as_slice())?;
    let feeds = feeds_in(alloc, parts, streams.as_slice())?;
    Ok((streams, consumers, feeds))
}

// The subscriptions to the stream of each part, by number.
fn consumers_in(
    alloc: Global,
    parts: &Parts,
    streams: &[Name],
) -> Result<Seq<SubscriptionList>, NoMemory>
    requires small { parts_of parts.now < 2 ^ 32 }
    requires published { streams.now ≡ streams_of parts.now }
    ensures { IfOk result (λ consumers. consumers ≡ by_part consumers_of parts.now) }
{
    let mut consumers = Seq::new(alloc);
    for stream in streams {
        consumers.push(subscriptions(alloc, parts, stream.text())?)?;
    }
    Ok(consumers)
}

// The subscriptions to a stream, in the order of the file.
fn subscriptions(alloc: Global, parts: &Parts, stream: &str) -> Result<SubscriptionList, NoMemory>
    requires { parts_of parts.now < 2 ^ 32 }
    ensures { IfOk result (λ found. found ≡ subscriptions_in stream.now parts.now) }
{
    let injectors = parts.injector_count();
    let mut found = Seq::new(alloc);
    for (at, computation) in parts.computations().iter().enumerate() {
        subscribe(
            &mut found,
            injectors + at as u32,
            computation.reads(),
            stream,
        )?;
    }
    Ok(found)
}

// Adds the subscriptions of one computation to a stream.
fn subscribe(
    found: &mut SubscriptionList,
    to: u32,
    reads: &[ReadingPart],
    stream: &str,
) -> Result<(), NoMemory>
    ensures { OnOk result (found.new ≡ found.old ++ subscriptions_by stream.now to reads.now) }
{
    for reading in reads {
        if reading.stream() == stream {
            found.push(Subscription {
                to,
                by: reading.by(),
            })?;
        }
    }
    Ok(())
}

// The parts that each part reads, by number.
fn feeds_in(alloc: Global, parts: &Parts, streams: &[Name]) -> Result<Seq<NumberList>, NoMemory>
    requires small { parts_of parts.now < 2 ^ 32 }
    requires published { streams.now ≡ streams_of parts.now }
    ensures { IfOk result (λ feeds. feeds ≡ by_part feeds_of parts.now) }
{
    let mut feeds = Seq::new(alloc);
    for part in 0..parts.count() {
        feeds.push(sources(alloc, parts.reads(part), streams)?)?;
    }
    Ok(feeds)
}

// The numbers of the streams that are read, ascending.
fn sources(alloc: Global, reads: &[ReadingPart], streams: &[Name]) -> Result<NumberList, NoMemory>
    requires { length streams.now < 2 ^ 32 }
    ensures { IfOk result (λ found. found ≡ numbers_from (are_reading reads.now) 0 streams.now) }
{
    let mut found = Seq::new(alloc);
    for (at, stream) in streams.iter().enumerate() {
        if are_reading(reads, stream.text()) {
            found.push(at as u32)?;
        }
    }
    Ok(found)
}

/// Whether one of these readings is of this stream.
pub fn are_reading(reads: &[ReadingPart], stream: &str) -> bool
    ensures { result ≡ are_reading reads.now stream.now }
{
    reads.iter().any(|read| read.stream() == stream)
}
