//! Relays: what a message has to pass on its way, and what passing leaves.
ghost use Rattle.std.specs.Prelude.{◌≡◌, ◌<◌, ◌+◌, ◌-◌, ◌≤◌, ◌^◌, ◌++◌, ◌∷◌, [], length, map, replicate, IfErr, IfOk, IfSome, IsSome, None, OnErr, OnOk, slice_get, slice_set, unwrap_or};
ghost use Rattle.std.specs.Vec.{vec_capacity};
ghost use Rattle.node.specs.Received.{outgoing_of};
ghost use Rattle.weak_relay.specs.Relays.{with_id};
ghost use Rattle.world.specs.scripts.Standing.{AreOnWay};
ghost use Rattle.world.specs.scripts.Stepping.{NamesNone};
ghost use Rattle.world.specs.scripts.Relaying.{AreRouted, HasRelayed, IsRouted, copied_left, passed_in, passing_of, sent_left, told_by, way_length, word_in};
ghost use Rattle.world.specs.scripts.WorldStates.{flight_of, noteless};
ghost use Rattle.world.specs.scripts.Worlds.{is_next, relays_on};

use crate::scripts::flights::{Flight, find, has_numbers, make_room, take_out};
use book::NoNote;
use mw_types::{NoMemory, RecordId};
use node::{Message, NodeFault, Outcome};
use std::alloc::Global;
use topology::Routes;
use weak_relay::Relay;

// How many relays each message has still to pass that was sent or copied, by its number.
pub(crate) type Left = Vec<usize>;

// The relays, by their numbers.
pub(crate) type Relays = Vec<Relay>;

// So many relays that hold no id.
pub(crate) fn new_relays(alloc: Global, count: u32) -> Result<Relays, NoMemory>
    ensures { IfOk result (λ relays. relays.items ≡ replicate count []) }
{
    let mut relays = Vec::new(alloc);
    for number in 0..count {
        relays.push(Relay::new(alloc))?;
    }
    Ok(relays)
}

// Has each relay forget.
pub(crate) fn forget_all(relays: &mut Relays)
    ensures { relays.new.items ≡ replicate (length relays.old.items) [] }
{
    for number in 0..relays.len() {
        relays[number].forget();
    }
}

// ---- what messages have to pass

// Makes places for so many messages more.
pub(crate) fn make_places(left: &mut Left, count: usize) -> Result<(), NoMemory>
    ensures same { left.new.items ≡ left.old.items }
    ensures room { OnOk result (length left.new.items + count ≤ vec_capacity left.new) }
{
    left.reserve(count)?;
    Ok(())
}

// How many relays a message has still to pass, by its number.
pub(crate) fn to_pass(left: &[usize], message: u32) -> usize
    ensures { result ≡ unwrap_or (slice_get left.now message) 0 }
{
    match left.get(message as usize) {
        Some(count) => *count,
        None => 0,
    }
}

// The relays on the route of a message's record, from its producer on.
fn way_of<'r>(routes: &'r Routes, message: &Message<NoNote>) -> &'r [u32]
    requires { IsRouted routes.now (outgoing_of message.now) }
    ensures { result.now ≡ relays_on routes.now (outgoing_of message.now) }
{
    match message {
        Message::Deliver { parcel } => routes.route(parcel.sender.part, parcel.delivery.id.index),
        Message::Ack { receipt } => routes.route(receipt.to.part, receipt.id.index),
    }
}

// Notes of each message that was sent just now that it has its whole way to go.
pub(crate) fn note_sent(left: &mut Left, flight: &Flight, routes: &Routes)
    requires behind { length left.old.items ≤ length flight.now.items }
    requires room { length flight.now.items ≤ vec_capacity left.old }
    requires routed { AreRouted routes.now (flight_of flight.now.items) }
    ensures { left.new.items ≡ sent_left routes.now (flight_of flight.now.items) left.old.items }
{
    let sent = &flight.as_slice()[left.len()..];
    note_ways(left, sent, routes);
}

// Notes how many relays are on the way of each of these.
fn note_ways(left: &mut Left, sent: &[Option<Message<NoNote>>], routes: &Routes)
    requires room { length left.old.items + length sent.now ≤ vec_capacity left.old }
    requires routed { AreRouted routes.now (flight_of sent.now) }
    ensures { left.new.items ≡ left.old.items ++ map (way_length routes.now) (flight_of sent.now) }
{
    for place in sent {
        left.push_reserved(way_length(routes, place));
    }
}

// How many relays are on the way of what is in flight under a number, if anything is.
fn way_length(routes: &Routes, place: &Option<Message<NoNote>>) -> usize
    requires routed { IfSome (noteless place.now) (IsRouted routes.now) }
    ensures { result ≡ way_length routes.now (noteless place.now) }
{
    match place {
        Some(message) => way_of(routes, message).len(),
        None => 0,
    }
}

// Notes of a copy, if one was made just now, that it has as many to pass as its original.
pub(crate) fn note_copied(left: &mut Left, flight: &Flight, message: u32)
    requires room { length left.old.items + 1 ≤ vec_capacity left.old }
    ensures { left.new.items ≡ copied_left message (length flight.now.items) left.old.items }
{
    if left.len() < flight.len() {
        let same = to_pass(left, message);
        left.push_reserved(same);
    }
}

// ---- a message that passes a relay

// Whether a relay is the next on the way of a message that has so many to pass: a record goes on from its
// producer, and word of it goes back.
fn is_next(relay: u32, routes: &Routes, message: &Message<NoNote>, left: usize) -> bool
    requires routed { IsRouted routes.now (outgoing_of message.now) }
    requires on_way { left ≤ length (relays_on routes.now (outgoing_of message.now)) }
    ensures { let message = outgoing_of message.now in
        result ≡ is_next relay (relays_on routes.now message) message left }
{
    if left == 0 {
        return false;
    }
    let way = way_of(routes, message);
    match message {
        Message::Deliver { parcel: _ } => way[way.len() - left] == relay,
        Message::Ack { receipt: _ } => way[left - 1] == relay,
    }
}

// The id of a message's record, and whether the message is word of it.
fn told_by(message: &Message<NoNote>) -> (RecordId, bool)
    ensures { result ≡ told_by (outgoing_of message.now) }
{
    match message {
        Message::Deliver { parcel } => (parcel.delivery.id, false),
        Message::Ack { receipt } => (receipt.id, true),
    }
}

// A message that is in flight comes to a relay.
pub(crate) fn relay(
    flight: &mut Flight,
    left: &mut Left,
    relays: &mut Relays,
    routes: &Routes,
    relay: u32,
    message: u32,
) -> Result<Outcome, NodeFault>
    requires relay { relay < length relays.old.items }
    requires few { length flight.old.items ≤ 2 ^ 32 }
    requires routed { AreRouted routes.now (flight_of flight.old.items) }
    requires on_way { AreOnWay routes.now (flight_of flight.old.items) left.old.items }
    ensures acted { IfOk result (HasRelayed relay message routes.now
        (flight_of flight.old.items) left.old.items relays.old.items
        (flight_of flight.new.items) left.new.items relays.new.items) }
    ensures cause { IfOk result NamesNone }
    ensures flight { OnErr result (flight.new.items ≡ flight.old.items) }
    ensures left { OnErr result (left.new.items ≡ left.old.items) }
    ensures relays { OnErr result (relays.new.items ≡ relays.old.items) }
    ensures no_memory { IfErr result (λ why. why ≡ NodeFault.NoMemory) }
{
    let Some(found) = find(flight, message) else {
        return Ok(Outcome::Nothing);
    };
    if !is_next(relay, routes, found, to_pass(left, message)) {
        return Ok(Outcome::Nothing);
    }
    let (id, is_word) = told_by(found);
    let here = &mut relays[relay as usize];
    if is_word {
        back(flight, left, here, id, message)
    } else {
        forward(flight, left, here, id, message)
    }
}

// A record passes a relay, which holds its id then, if there is a number for it.
fn forward(
    flight: &mut Flight,
    left: &mut Left,
    relay: &mut Relay,
    id: RecordId,
    message: u32,
) -> Result<Outcome, NodeFault>
    requires there { IsSome (unwrap_or (slice_get flight.old.items message) None) }
    requires few { length flight.old.items ≤ 2 ^ 32 }
    ensures passed { IfOk result (λ outcome.
        (outcome, passing_of flight.new.items left.new.items relay.new)
        ≡ passed_in message (with_id id relay.old)
        (passing_of flight.old.items left.old.items relay.old)) }
    ensures cause { IfOk result NamesNone }
    ensures flight { OnErr result (flight.new.items ≡ flight.old.items) }
    ensures left { OnErr result (left.new.items ≡ left.old.items) }
    ensures relay { OnErr result (relay.new ≡ relay.old) }
    ensures no_memory { IfErr result (λ why. why ≡ NodeFault.NoMemory) }
{
    if !has_numbers(flight, 1) {
        return Ok(Outcome::Nothing);
    }
    make_room(flight, 1)?;
    make_places(left, 1)?;
    relay.forward(id)?;
    pass_on(flight, left, message);
    Ok(Outcome::Sent { count: 1 })
}

// Word of a record passes a relay that holds the record's id, which it holds no more then; else it is lost.
fn back(
    flight: &mut Flight,
    left: &mut Left,
    relay: &mut Relay,
    id: RecordId,
    message: u32,
) -> Result<Outcome, NodeFault>
    requires there { IsSome (unwrap_or (slice_get flight.old.items message) None) }
    requires few { length flight.old.items ≤ 2 ^ 32 }
    ensures passed { IfOk result (λ outcome.
        (outcome, passing_of flight.new.items left.new.items relay.new)
        ≡ word_in message id (passing_of flight.old.items left.old.items relay.old)) }
    ensures cause { IfOk result NamesNone }
    ensures flight { OnErr result (flight.new.items ≡ flight.old.items) }
    ensures left { OnErr result (left.new.items ≡ left.old.items) }
    ensures relay { OnErr result (relay.new ≡ relay.old) }
    ensures no_memory { IfErr result (λ why. why ≡ NodeFault.NoMemory) }
{
    if !relay.holds(id) {
        drop(take_out(flight, message));
        return Ok(Outcome::Lost);
    }
    if !has_numbers(flight, 1) {
        return Ok(Outcome::Nothing);
    }
    make_room(flight, 1)?;
    make_places(left, 1)?;
    relay.back(id);
    pass_on(flight, left, message);
    Ok(Outcome::Sent { count: 1 })
}

// A message leaves flight, and gets the next number, with one relay less to pass.
fn pass_on(flight: &mut Flight, left: &mut Left, message: u32)
    requires there { IsSome (unwrap_or (slice_get flight.old.items message) None) }
    requires room { length flight.old.items + 1 ≤ vec_capacity flight.old }
    requires places { length left.old.items + 1 ≤ vec_capacity left.old }
    ensures flight { flight.new.items ≡ slice_set flight.old.items message None
        ++ unwrap_or (slice_get flight.old.items message) None ∷ [] }
    ensures left { left.new.items ≡ left.old.items
        ++ (unwrap_or (slice_get left.old.items message) 0 - 1) ∷ [] }
{
    let fewer = to_pass(left, message).saturating_sub(1);
    let taken = take_out(flight, message);
    flight.push_reserved(Some(taken));
    left.push_reserved(fewer);
}
