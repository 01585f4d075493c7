//! What is sent to each part: a stream that is whole is sent on once.
ghost use Rattle.std.specs.Prelude.{◌≡◌, ◌++◌, ◌∷◌, [], fold, IfOk, OnOk};
ghost use Rattle.run_history.specs.Made.{row_to, sends_of};
ghost use Rattle.plain_answer.specs.Sends.{sent_along, sent_to};

use mw_types::{Duplicate, Key, NoMemory, Record, Seq};
use std::alloc::Global;
use topology::{Subscription, extract};

// The members that one part reads, each with the key of the row that reads it.
pub(crate) type Members = Seq<(Key, Record)>;

// Sends each member of a stream to each of its consumers.
pub(crate) fn send_stream(
    alloc: Global,
    reads: &mut Vec<Members>,
    consumers: &[Subscription],
    items: &[Record],
) -> Result<(), NoMemory>
    ensures { OnOk result (reads.new.items ≡ sent_along consumers.now reads.old.items items.now) }
{
    for item in items {
        send_each(alloc, reads, consumers, item)?;
    }
    Ok(())
}

// Sends one member to each of these consumers.
fn send_each(
    alloc: Global,
    reads: &mut Vec<Members>,
    consumers: &[Subscription],
    item: &Record,
) -> Result<(), NoMemory>
    ensures { OnOk result
        (reads.new.items ≡ fold sent_to reads.old.items (sends_of consumers.now item.now)) }
{
    for consumer in consumers {
        send(alloc, reads, consumer, item)?;
    }
    Ok(())
}

// Sends one member to one consumer.
fn send(
    alloc: Global,
    reads: &mut Vec<Members>,
    consumer: &Subscription,
    item: &Record,
) -> Result<(), NoMemory>
    ensures { OnOk result (reads.new.items
        ≡ sent_to reads.old.items (row_to item.now consumer.now, item.now)) }
{
    let key = extract(alloc, consumer.by, &item.key)?;
    let copy = copied(alloc, item)?;
    match reads.get_mut(consumer.to as usize) {
        Some(list) => list.push((key, copy)),
        None => Ok(()),
    }
}

// A record once more.
pub(crate) fn copied(alloc: Global, item: &Record) -> Result<Record, NoMemory>
    ensures { IfOk result (λ copy. copy ≡ item.now) }
{
    Ok(Record {
        key: item.key.copy(alloc)?,
        stamp: item.stamp,
        value: item.value,
        late: item.late,
    })
}
