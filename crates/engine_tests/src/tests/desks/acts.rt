//! What a worker is asked to do at a desk, and what it answers.
ghost use Rattle.std.specs.Prelude.{◌≡◌};
ghost use Rattle.node.specs.Fits.{Fits};
ghost use Rattle.outbox.specs.Messages.{IsAddressed, IsVouchedFor};
ghost use Rattle.node.specs.Received.{note_of, outgoing_of};

use super::example::Example;
use crate::tests::must;
use book::{Desk, Seen};
use node::{Message, Node, NodeFault, Outcome};
use std::alloc::Global;
use std::process::Abort;

// What a worker is asked to do.
#[derive(Clone, Copy, PartialEq, Eq)]
pub(crate) enum Act {
    // Claim the interval of the injector.
    ClaimSource,
    // Claim the interval of the count.
    ClaimCount,
    // Inject the injector's next line.
    Inject,
    // Send the first message, and take it in itself.
    Take,
    // Write what is prepared.
    Write,
    // Report the own work of the injector's interval.
    ReportSource,
    // Report the own work of the count's interval.
    ReportCount,
    // Load the mark of the injector's interval.
    LoadSource,
    // Fire the count's next timer.
    Fire,
    // Purge a row of the count's interval.
    Purge,
    // Put all that is pending into its outbox again.
    Sweep,
}

// What a worker answers.
#[derive(Clone, Copy, PartialEq, Eq)]
pub(crate) enum Answer {
    // The interval was claimed, with this sequencer.
    Claimed(u64),
    // An entry was written, with this commit number.
    Committed(u64),
    // A record was handled, and is still to be written.
    Prepared,
    // A record was finished already, and is acknowledged again.
    Duplicate,
    // A message is for a row that the worker does not have.
    NotMine,
    // So many records are to be sent again.
    Queued(u64),
    // The own work was reported, and this is the interval's mark.
    Marked(u64),
    // The lease was overtaken, by a claim with this commit number.
    Stale(u64),
    // Another seat had the turn, by this word.
    Busy(u64),
    // There was nothing to do.
    Nothing,
    // The keeper failed.
    KeeperFault,
    // Something else.
    Other,
}

// An answer of a worker in short.
pub(crate) fn short(answer: &Result<Outcome, NodeFault>) -> Answer {
    match answer {
        Ok(Outcome::Claimed { seq }) => Answer::Claimed(*seq),
        Ok(Outcome::Committed { commit }) => Answer::Committed(*commit),
        Ok(Outcome::Prepared) => Answer::Prepared,
        Ok(Outcome::Duplicate) => Answer::Duplicate,
        Ok(Outcome::NotMine) => Answer::NotMine,
        Ok(Outcome::Queued { count }) => Answer::Queued(*count),
        Ok(Outcome::Marked { mark }) => Answer::Marked(*mark),
        Ok(Outcome::Stale { newer }) => Answer::Stale(*newer),
        Ok(Outcome::Busy { found }) => Answer::Busy(*found),
        Ok(Outcome::Nothing) => Answer::Nothing,
        Err(NodeFault::KeeperFault) => Answer::KeeperFault,
        _ => Answer::Other,
    }
}

// A worker takes in a message that came from a desk of its book.
pub(crate) fn receive<N: Seen, D: Desk<Note = N>>(
    alloc: Global,
    given: &Example,
    desk: &mut D,
    node: &mut Node<N>,
    message: Message<N>,
) -> Result<Outcome, NodeFault>
    requires fits { Fits given.now.case (D.view desk.old) node.old }
    requires addressed { IsAddressed given.now.case.topology (outgoing_of message) }
    requires known { N.book (note_of message) ≡ (D.home desk.old).book }
    requires vouched { IsVouchedFor given.now.case (D.view desk.old)
        (N.sight (note_of message)) (outgoing_of message) }
    ensures fits { Fits given.now.case (D.view desk.new) node.new }
    ensures loan { D.loan desk.new ≡ D.loan desk.old }
    ensures home { D.home desk.new ≡ D.home desk.old }
{
    let case = &given.case;
    match message {
        Message::Deliver { parcel } => {
            node.prepare(alloc, desk, case, given.work(), Message::Deliver { parcel })
        }
        Message::Ack { receipt } => node.take_ack(alloc, desk, case, Message::Ack { receipt }),
    }
}

// A worker sends its first message, and takes it in itself.
fn take<N: Seen, D: Desk<Note = N>>(
    alloc: Global,
    given: &Example,
    desk: &mut D,
    node: &mut Node<N>,
) -> Result<Outcome, NodeFault>
    requires fits { Fits given.now.case (D.view desk.old) node.old }
    ensures fits { Fits given.now.case (D.view desk.new) node.new }
    ensures loan { D.loan desk.new ≡ D.loan desk.old }
    ensures home { D.home desk.new ≡ D.home desk.old }
{
    match node.next_message(desk) {
        Some(message) => receive(alloc, given, desk, node, message),
        None => Ok(Outcome::Nothing),
    }
}

// A worker's desk loads the mark of the injector's interval.
fn load<N: Seen, D: Desk<Note = N>>(given: &Example, desk: &mut D, node: &Node<N>) -> Outcome
    requires fits { Fits given.now.case (D.view desk.old) node.now }
    ensures fits { Fits given.now.case (D.view desk.new) node.now }
    ensures loan { D.loan desk.new ≡ D.loan desk.old }
    ensures home { D.home desk.new ≡ D.home desk.old }
{
    desk.sound();
    let mark = desk.mark(0);
    desk.sound();
    Outcome::Marked { mark }
}

// A worker does what it is asked to.
pub(crate) fn act_on<N: Seen, D: Desk<Note = N>>(
    alloc: Global,
    given: &Example,
    desk: &mut D,
    node: &mut Node<N>,
    act: Act,
) -> Result<Outcome, NodeFault>
    requires fits { Fits given.now.case (D.view desk.old) node.old }
    ensures fits { Fits given.now.case (D.view desk.new) node.new }
    ensures loan { D.loan desk.new ≡ D.loan desk.old }
    ensures home { D.home desk.new ≡ D.home desk.old }
{
    let case = &given.case;
    match act {
        Act::ClaimSource => node.claim(alloc, desk, case, 0),
        Act::ClaimCount => node.claim(alloc, desk, case, 1),
        Act::Inject => node.inject(alloc, desk, case, 0),
        Act::Take => take(alloc, given, desk, node),
        Act::Write => node.commit(alloc, desk, case),
        Act::ReportSource => node.report(alloc, desk, case, 0),
        Act::ReportCount => node.report(alloc, desk, case, 1),
        Act::LoadSource => Ok(load(given, desk, node)),
        Act::Fire => node.fire(alloc, desk, case, given.work(), 1),
        Act::Purge => node.purge(alloc, desk, case, 1, 1),
        Act::Sweep => node.sweep(alloc, &*desk, case),
    }
}

// A worker does one thing after the other, and each time answers what was worked out by hand.
pub(crate) fn drive<N: Seen, D: Desk<Note = N>>(
    rt: &impl Abort,
    alloc: Global,
    given: &Example,
    desk: &mut D,
    node: &mut Node<N>,
    table: &[(Act, Answer)],
)
    requires fits { Fits given.now.case (D.view desk.old) node.old }
    ensures fits { Fits given.now.case (D.view desk.new) node.new }
    ensures loan { D.loan desk.new ≡ D.loan desk.old }
    ensures home { D.home desk.new ≡ D.home desk.old }
{
    let mut nth = 0u32;
    for step in table {
        let (act, want) = *step;
        nth = nth.saturating_add(1);
        let answer = act_on(alloc, given, desk, node, act);
        must(rt, short(&answer) == want, nth);
        drop(answer);
    }
}
