//! Messages in flight, each found by its number.
ghost use Rattle.std.specs.Prelude.{List, ℕ, ◌≡◌, ◌≤◌, ◌+◌, ◌++◌, ◌∷◌, ◌^◌, [], nat_le, length, map, All, IfErr, IfOk, IsFalse, IsSome, IsTrue, None, OnErr, OnOk, Some, option_copied, slice_get, slice_set, unwrap_or};
ghost use Rattle.std.specs.Option.{option_map};
ghost use Rattle.std.specs.Vec.{vec_capacity};
ghost use Rattle.topology.specs.Folding.{RoutesView};
ghost use Rattle.book.specs.Books.{BookView};
ghost use Rattle.node.specs.Received.{outgoing_of};
ghost use Rattle.node.specs.Workers.{worker_at};
ghost use Rattle.world.specs.scripts.Acts.{without_message};
ghost use Rattle.world.specs.scripts.Worlds.{in_flight};
ghost use Rattle.world.specs.scripts.Standing.{AreOnWay, FitsOwn, IsFlying};
ghost use Rattle.world.specs.scripts.Stepping.{NamesNone};
ghost use Rattle.world.specs.scripts.WorkerCalls.{CopiesOn, FliesOn, HasCalled, HasCopied, HasSent, IsSending, SendsOn};
ghost use Rattle.world.specs.scripts.WorldStates.{flight_of};

use book::{Book, NoNote, OwnDesk};
use mw_types::{Duplicate, NoMemory};
use node::{Message, Node, NodeFault, Outcome, Parcel, Receipt};
use plans::Step;
use row_keeper::Keeper;
use std::alloc::Global;

// A place for each message that was sent or copied, by its number: nothing once the message is gone.
pub(crate) type Flight = Vec<Option<Message<NoNote>>>;

// A message that is in flight, by its number.
pub(crate) fn find(flight: &[Option<Message<NoNote>>], message: u32) -> Option<&Message<NoNote>>
    ensures { option_copied result ≡ unwrap_or (slice_get flight.now message) None }
{
    match flight.get(message as usize) {
        Some(place) => place.as_ref(),
        None => None,
    }
}

// Takes a message that is in flight away, by its number.
pub(crate) fn take_out(flight: &mut Flight, message: u32) -> Message<NoNote>
    requires there { IsSome (unwrap_or (slice_get flight.old.items message) None) }
    ensures taken { unwrap_or (slice_get flight.old.items message) None ≡ Some result }
    ensures gone { flight.new.items ≡ slice_set flight.old.items message None }
    ensures room { vec_capacity flight.new ≡ vec_capacity flight.old }
{
    flight[message as usize].take().unwrap()
}

// Whether there are numbers for so many messages more.
pub(crate) fn has_numbers(flight: &Flight, count: usize) -> bool
    requires few { length flight.now.items ≤ 2 ^ 32 }
    ensures { result ≡ nat_le (length flight.now.items + count) (2 ^ 32) }
{
    count <= (1 << 32) - flight.len()
}

// Makes room for so many messages more.
pub(crate) fn make_room(flight: &mut Flight, count: usize) -> Result<(), NoMemory>
    ensures same { flight.new.items ≡ flight.old.items }
    ensures room { OnOk result
        (length flight.new.items + count ≤ vec_capacity flight.new) }
{
    flight.reserve(count)?;
    Ok(())
}

// A worker sends all that it has to send, if there are numbers for it.
pub(crate) fn send<'a, K: Keeper>(
    book: &mut Book<'a, K>,
    node: &mut Node<NoNote>,
    flight: &mut Flight,
) -> Result<Outcome, NodeFault>
    requires fits { FitsOwn book.old node.old }
    requires few { length flight.old.items ≤ 2 ^ 32 }
    requires flying { All (IsFlying book.old) (flight_of flight.old.items) }
    ensures called { HasCalled book.old book.new node.old node.new }
    ensures acted { IfOk result (SendsOn book.old node.old (flight_of flight.old.items)
        book.new node.new (flight_of flight.new.items)) }
    ensures cause { IfOk result NamesNone }
    ensures sent { HasSent (length node.old.outbox)
        (flight_of flight.old.items) (flight_of flight.new.items) }
    ensures few { length flight.new.items ≤ 2 ^ 32 }
    ensures flying { All (IsFlying book.new) (flight_of flight.new.items) }
    ensures unsent { OnErr result (book.new ≡ book.old) }
    ensures kept { OnErr result (node.new ≡ node.old) }
    ensures unchanged { OnErr result (flight.new.items ≡ flight.old.items) }
    ensures no_memory { IfErr result (λ why. why ≡ NodeFault.NoMemory) }
{
    // Its clauses say what always holds of a book.
    book.history();
    let count = node.unsent();
    if !has_numbers(flight, count) {
        return Ok(Outcome::Nothing);
    }
    make_room(flight, count)?;
    send_all(book, node, flight);
    book.history();
    Ok(Outcome::Sent {
        count: count as u64,
    })
}

// Moves all that a worker has to send into flight, in order.
fn send_all<'a, K: Keeper>(book: &mut Book<'a, K>, node: &mut Node<NoNote>, flight: &mut Flight)
    requires fits { FitsOwn book.old node.old }
    requires room { length flight.old.items + length node.old.outbox ≤ vec_capacity flight.old }
    ensures sending { IsSending book.old node.old (flight_of flight.old.items)
        book.new node.new (flight_of flight.new.items) }
    ensures all { node.new.outbox ≡ [] }
{
    while send_first(book, node, flight) {}
}

// Moves the first that a worker has to send into flight, if it has anything.
fn send_first<'a, K: Keeper>(
    book: &mut Book<'a, K>,
    node: &mut Node<NoNote>,
    flight: &mut Flight,
) -> bool
    requires fits { FitsOwn book.old node.old }
    requires room { length flight.old.items + length node.old.outbox ≤ vec_capacity flight.old }
    ensures sending { IsSending book.old node.old (flight_of flight.old.items)
        book.new node.new (flight_of flight.new.items) }
    ensures room { length flight.new.items + length node.new.outbox ≤ vec_capacity flight.new }
    ensures fewer { IsTrue result → length node.new.outbox + 1 ≡ length node.old.outbox }
    ensures none { IsFalse result → node.new.outbox ≡ [] }
{
    let mut desk = OwnDesk { book };
    match node.next_message(&mut desk) {
        Some(message) => {
            flight.push_reserved(Some(message));
            true
        }
        None => false,
    }
}

// A message comes once more, if it is in flight and there is a number for it.
pub(crate) fn repeat(alloc: Global, flight: &mut Flight, message: u32) -> Result<Outcome, NodeFault>
    requires few { length flight.old.items ≤ 2 ^ 32 }
    ensures acted { IfOk result (CopiesOn message
        (flight_of flight.old.items) (flight_of flight.new.items)) }
    ensures cause { IfOk result NamesNone }
    ensures copied { HasCopied message
        (flight_of flight.old.items) (flight_of flight.new.items) }
    ensures few { length flight.new.items ≤ 2 ^ 32 }
    ensures flying { (book : BookView) → All (IsFlying book) (flight_of flight.old.items) →
        All (IsFlying book) (flight_of flight.new.items) }
    ensures unchanged { OnErr result (flight.new.items ≡ flight.old.items) }
    ensures no_memory { IfErr result (λ why. why ≡ NodeFault.NoMemory) }
{
    let Some(found) = find(flight, message) else {
        return Ok(Outcome::Nothing);
    };
    if !has_numbers(flight, 1) {
        return Ok(Outcome::Nothing);
    }
    let copied = copy_of(alloc, found)?;
    put(flight, copied)
}

// A message comes into flight, and gets the next number.
fn put(flight: &mut Flight, message: Message<NoNote>) -> Result<Outcome, NodeFault>
    requires few { length flight.old.items + 1 ≤ 2 ^ 32 }
    ensures number { IfOk result (λ outcome.
        outcome ≡ Outcome.Copied (length flight.old.items)) }
    ensures put { OnOk result
        (flight.new.items ≡ flight.old.items ++ Some message ∷ []) }
    ensures unchanged { OnErr result (flight.new.items ≡ flight.old.items) }
    ensures no_memory { IfErr result (λ why. why ≡ NodeFault.NoMemory) }
{
    let number = flight.len() as u32;
    if let Err(want) = make_room(flight, 1) {
        drop(message);
        return Err(want.into());
    }
    flight.push_reserved(Some(message));
    Ok(Outcome::Copied { message: number })
}

// An equal message, with the same note.
fn copy_of(alloc: Global, message: &Message<NoNote>) -> Result<Message<NoNote>, NoMemory>
    ensures { IfOk result (λ copied. copied ≡ message.now) }
{
    match message {
        Message::Deliver { parcel } => Ok(Message::Deliver {
            parcel: parcel_of(alloc, parcel)?,
        }),
        Message::Ack { receipt } => Ok(Message::Ack {
            receipt: receipt_of(alloc, receipt)?,
        }),
    }
}

// An equal record on its way, with the same note.
fn parcel_of(alloc: Global, parcel: &Parcel<NoNote>) -> Result<Parcel<NoNote>, NoMemory>
    ensures { IfOk result (λ copied. copied ≡ parcel.now) }
{
    Ok(Parcel {
        delivery: parcel.delivery.copy(alloc)?,
        sender: parcel.sender.copy(alloc)?,
        note: parcel.note,
    })
}

// Equal word that a record was handled, with the same note.
fn receipt_of(alloc: Global, receipt: &Receipt<NoNote>) -> Result<Receipt<NoNote>, NoMemory>
    ensures { IfOk result (λ copied. copied ≡ receipt.now) }
{
    Ok(Receipt {
        to: receipt.to.copy(alloc)?,
        id: receipt.id,
        note: receipt.note,
    })
}

// A message is lost, if it is in flight.
pub(crate) fn lose(flight: &mut Flight, message: u32) -> Outcome
    ensures acted { FliesOn (Step.Lose message)
        (flight_of flight.old.items) (flight_of flight.new.items) result }
    ensures cause { NamesNone result }
    ensures same { length flight.new.items ≡ length flight.old.items }
    ensures on_way { (routes : RoutesView) (left : List ℕ) →
        AreOnWay routes (flight_of flight.old.items) left →
        AreOnWay routes (flight_of flight.new.items) left }
    ensures flying { (book : BookView) → All (IsFlying book) (flight_of flight.old.items) →
        All (IsFlying book) (flight_of flight.new.items) }
{
    if find(flight, message).is_none() {
        return Outcome::Nothing;
    }
    take_out(flight, message);
    Outcome::Lost
}
