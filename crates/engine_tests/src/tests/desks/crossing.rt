//! Two workers over the desks of two seats, of which each is handed what the other sends: the note of a
//! message tells what its sender has seen.
ghost use Rattle.std.specs.Prelude.{◌≡◌};
ghost use Rattle.node.specs.Fits.{Fits};
ghost use Rattle.shared_book.specs.SharedDesks.{shared_home, shared_view};

use super::acts::{Act, Answer, act_on, receive, short};
use super::example::Example;
use crate::tests::must;
use book::Desk;
use node::{Node, NodeFault, Outcome};
use row_keeper::Keeper;
use shared_book::{Note, SharedDesk};
use std::alloc::Global;
use std::process::Abort;

// What is done next.
#[derive(Clone, Copy)]
pub(crate) enum Step {
    // Worker 0 does this.
    One(Act),
    // Worker 1 does this.
    Other(Act),
    // Worker 1 takes in what worker 0 has to send first.
    Hand,
    // Worker 1 takes in a copy of it, and worker 0 still has it to send.
    Copy,
    // Worker 0 takes in what worker 1 has to send first.
    Back,
    // Worker 0's desk takes the turn and gives it back.
    CatchUp,
}

// A worker takes in what another has to send first.
fn hand<K: Keeper>(
    alloc: Global,
    given: &Example,
    from: &mut SharedDesk<'_, '_, K>,
    sender: &mut Node<Note<K>>,
    to: &mut SharedDesk<'_, '_, K>,
    receiver: &mut Node<Note<K>>,
) -> Result<Outcome, NodeFault>
    requires book { (shared_home from.old.seat.now.place).book
        ≡ (shared_home to.old.seat.now.place).book }
    requires sender { Fits given.now.case
        (shared_view from.old.seat.now.place.me.0) sender.old }
    requires receiver { Fits given.now.case
        (shared_view to.old.seat.now.place.me.0) receiver.old }
    ensures sender { Fits given.now.case
        (shared_view from.new.seat.now.place.me.0) sender.new }
    ensures loan { from.new.seat.ghost_name ≡ from.old.seat.ghost_name }
    ensures home { shared_home from.new.seat.now.place ≡ shared_home from.old.seat.now.place }
    ensures receiver { Fits given.now.case
        (shared_view to.new.seat.now.place.me.0) receiver.new }
    ensures other_loan { to.new.seat.ghost_name ≡ to.old.seat.ghost_name }
    ensures other_home { shared_home to.new.seat.now.place ≡ shared_home to.old.seat.now.place }
{
    match sender.next_message(from) {
        Some(message) => receive(alloc, given, to, receiver, message),
        None => Ok(Outcome::Nothing),
    }
}

// A worker takes in a copy of what another has to send first.
fn hand_copy<K: Keeper>(
    alloc: Global,
    given: &Example,
    from: &mut SharedDesk<'_, '_, K>,
    sender: &Node<Note<K>>,
    to: &mut SharedDesk<'_, '_, K>,
    receiver: &mut Node<Note<K>>,
) -> Result<Outcome, NodeFault>
    requires book { (shared_home from.old.seat.now.place).book
        ≡ (shared_home to.old.seat.now.place).book }
    requires sender { Fits given.now.case
        (shared_view from.old.seat.now.place.me.0) sender.now }
    requires receiver { Fits given.now.case
        (shared_view to.old.seat.now.place.me.0) receiver.old }
    ensures sender { Fits given.now.case
        (shared_view from.new.seat.now.place.me.0) sender.now }
    ensures loan { from.new.seat.ghost_name ≡ from.old.seat.ghost_name }
    ensures home { shared_home from.new.seat.now.place ≡ shared_home from.old.seat.now.place }
    ensures receiver { Fits given.now.case
        (shared_view to.new.seat.now.place.me.0) receiver.new }
    ensures other_loan { to.new.seat.ghost_name ≡ to.old.seat.ghost_name }
    ensures other_home { shared_home to.new.seat.now.place ≡ shared_home to.old.seat.now.place }
{
    match sender.first_again(alloc, from)? {
        Some(message) => receive(alloc, given, to, receiver, message),
        None => Ok(Outcome::Nothing),
    }
}

// A worker's desk takes the turn and gives it back.
fn catch_up<K: Keeper>(
    given: &Example,
    desk: &mut SharedDesk<'_, '_, K>,
    node: &Node<Note<K>>,
) -> Outcome
    requires fits { Fits given.now.case (shared_view desk.old.seat.now.place.me.0) node.now }
    ensures fits { Fits given.now.case (shared_view desk.new.seat.now.place.me.0) node.now }
    ensures loan { desk.new.seat.ghost_name ≡ desk.old.seat.ghost_name }
    ensures home { shared_home desk.new.seat.now.place ≡ shared_home desk.old.seat.now.place }
{
    desk.sound();
    let _tried = desk.catch_up();
    desk.sound();
    Outcome::Nothing
}

// What comes of a step.
fn stepped<K: Keeper>(
    alloc: Global,
    given: &Example,
    one: &mut SharedDesk<'_, '_, K>,
    first: &mut Node<Note<K>>,
    other: &mut SharedDesk<'_, '_, K>,
    second: &mut Node<Note<K>>,
    step: Step,
) -> Result<Outcome, NodeFault>
    requires book { (shared_home one.old.seat.now.place).book
        ≡ (shared_home other.old.seat.now.place).book }
    requires first { Fits given.now.case
        (shared_view one.old.seat.now.place.me.0) first.old }
    requires second { Fits given.now.case
        (shared_view other.old.seat.now.place.me.0) second.old }
    ensures first { Fits given.now.case
        (shared_view one.new.seat.now.place.me.0) first.new }
    ensures loan { one.new.seat.ghost_name ≡ one.old.seat.ghost_name }
    ensures home { shared_home one.new.seat.now.place ≡ shared_home one.old.seat.now.place }
    ensures second { Fits given.now.case
        (shared_view other.new.seat.now.place.me.0) second.new }
    ensures other_loan { other.new.seat.ghost_name ≡ other.old.seat.ghost_name }
    ensures other_home { shared_home other.new.seat.now.place
        ≡ shared_home other.old.seat.now.place }
{
    match step {
        Step::One(act) => act_on(alloc, given, one, first, act),
        Step::Other(act) => act_on(alloc, given, other, second, act),
        Step::Hand => hand(alloc, given, one, first, other, second),
        Step::Copy => hand_copy(alloc, given, one, first, other, second),
        Step::Back => hand(alloc, given, other, second, one, first),
        Step::CatchUp => Ok(catch_up(given, one, first)),
    }
}

// One step comes after the other, and each time the answer is what was worked out by hand.
fn take_steps<K: Keeper>(
    rt: &impl Abort,
    alloc: Global,
    given: &Example,
    one: &mut SharedDesk<'_, '_, K>,
    first: &mut Node<Note<K>>,
    other: &mut SharedDesk<'_, '_, K>,
    second: &mut Node<Note<K>>,
    steps: &[(Step, Answer)],
)
    requires book { (shared_home one.old.seat.now.place).book
        ≡ (shared_home other.old.seat.now.place).book }
    requires first { Fits given.now.case
        (shared_view one.old.seat.now.place.me.0) first.old }
    requires second { Fits given.now.case
        (shared_view other.old.seat.now.place.me.0) second.old }
    ensures first { Fits given.now.case
        (shared_view one.new.seat.now.place.me.0) first.new }
    ensures loan { one.new.seat.ghost_name ≡ one.old.seat.ghost_name }
    ensures home { shared_home one.new.seat.now.place ≡ shared_home one.old.seat.now.place }
    ensures second { Fits given.now.case
        (shared_view other.new.seat.now.place.me.0) second.new }
    ensures other_loan { other.new.seat.ghost_name ≡ other.old.seat.ghost_name }
    ensures other_home { shared_home other.new.seat.now.place
        ≡ shared_home other.old.seat.now.place }
{
    let mut nth = 0u32;
    for row in steps {
        let (step, want) = *row;
        nth = nth.saturating_add(1);
        let answer = stepped(alloc, given, one, first, other, second, step);
        must(rt, short(&answer) == want, nth);
        drop(answer);
    }
}

// The same, of two workers that have not acted yet.
pub(crate) fn cross<K: Keeper>(
    rt: &impl Abort,
    alloc: Global,
    given: &Example,
    one: &mut SharedDesk<'_, '_, K>,
    other: &mut SharedDesk<'_, '_, K>,
    steps: &[(Step, Answer)],
)
    requires book { (shared_home one.old.seat.now.place).book
        ≡ (shared_home other.old.seat.now.place).book }
    requires one { one.old.seat.now.place.me.0.basis.case ≡ given.now.case }
    requires other { other.old.seat.now.place.me.0.basis.case ≡ given.now.case }
    ensures case { one.new.seat.now.place.me.0.basis.case ≡ given.now.case }
    ensures loan { one.new.seat.ghost_name ≡ one.old.seat.ghost_name }
    ensures home { shared_home one.new.seat.now.place ≡ shared_home one.old.seat.now.place }
    ensures other_case { other.new.seat.now.place.me.0.basis.case ≡ given.now.case }
    ensures other_loan { other.new.seat.ghost_name ≡ other.old.seat.ghost_name }
    ensures other_home { shared_home other.new.seat.now.place
        ≡ shared_home other.old.seat.now.place }
{
    let mut first = Node::new(alloc, 0);
    let mut second = Node::new(alloc, 1);
    take_steps(rt, alloc, given, one, &mut first, other, &mut second, steps);
    drop(second);
    drop(first);
}
