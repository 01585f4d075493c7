//! Acknowledgements that come to a worker.
ghost use Rattle.std.specs.Prelude.{◌≡◌, ◌<◌, IfErr, IfOk, IfSome, OnErr, true};
ghost use Rattle.run_history.specs.Finished.{is_handled};
ghost use Rattle.topology.specs.Shapes.{parts_of};
ghost use Rattle.book.specs.Desks.{HasLooked, KeepsMarks};
ghost use Rattle.holdings.specs.Holding.{held_on};
ghost use Rattle.node.specs.Answers.{AnswersAck, AnswersAckOf, FailsAsked, HasGrown, HasKept};
ghost use Rattle.node.specs.Asking.{ack_asked, settle_asked};
ghost use Rattle.node.specs.Fits.{Fits};
ghost use Rattle.outbox.specs.Messages.{IsAddressed, IsVouchedFor};
ghost use Rattle.node.specs.Received.{IsAck, note_of, outgoing_of};

use crate::message::{Message, Receipt};
use crate::node::Node;
use crate::outcome::{NodeFault, Outcome};
use book::{Desk, Seen, Writing};
use mw_types::{RecordId, RowName};
use run_history::Case;
use std::alloc::Global;

impl<N: Seen> Node<N> {
    /// Takes in word that a record was handled: the row that sent it, which this worker has, no longer
    /// waits for it. The message is used up whatever the answer is, also where another has the turn.
    ///
    /// It answers `NotMine` exactly where it has no lease of the row, and else `Nothing` exactly
    /// where the id is not pending there.
    #[tactic(auto, using(crate::proofs::FitLaws::looked_not, crate::proofs::FitLaws::grown_looked, crate::proofs::FitLaws::fails_memory))]
    pub fn take_ack<D: Desk<Note = N>>(
        &mut self,
        alloc: Global,
        desk: &mut D,
        case: &Case,
        message: Message<N>,
    ) -> Result<Outcome, NodeFault>
        requires fits { Fits case.now (D.view desk.old) self.old }
        requires ack { IsAck (outgoing_of message) }
        requires addressed { IsAddressed case.now.topology (outgoing_of message) }
        requires known { N.book (note_of message) ≡ (D.home desk.old).book }
        requires vouched { IsVouchedFor case.now (D.view desk.old)
            (N.sight (note_of message)) (outgoing_of message) }

        ensures fits { Fits case.now (D.view desk.new) self.new }
        ensures answers { IfOk result (AnswersAckOf case.now.topology
            (D.view desk.old) (D.view desk.new) (outgoing_of message) self.old self.new) }
        ensures number { self.new.number ≡ self.old.number }

        ensures kept { OnErr result (HasKept self.old self.new) }
        ensures looked { OnErr result (HasLooked (D.view desk.old) (D.view desk.new)) }
        ensures fault { let asked = ack_asked case.now.topology self.old (outgoing_of message) in
            IfErr result (FailsAsked (D.view desk.old) (D.view desk.new) asked) }

        ensures grown { HasGrown self.old.held (D.view desk.old) (D.view desk.new) }
        ensures marks { KeepsMarks (D.view desk.old) (D.view desk.new) }
        ensures loan { D.loan desk.new ≡ D.loan desk.old }
        ensures home { D.home desk.new ≡ D.home desk.old }
    {
        match message {
            Message::Ack { receipt } => {
                let Receipt { to, id, note } = receipt;
                desk.sound();
                desk.meet(note);
                desk.sound();
                self.settle(alloc, desk, case, &to, id)
            }
            Message::Deliver { parcel: _ } => unreachable!(),
        }
    }

    /// Does what `take_ack` does with word that was taken out of its message, whose note was met: the row
    /// that sent the record, which this worker has, no longer waits for it. A caller that is answered
    /// `Busy` has the word still, and may try again.
    #[tactic(auto, using(crate::proofs::FitLaws::looked_not, crate::proofs::FitLaws::grown_looked, crate::proofs::FitLaws::fails_memory))]
    pub fn settle<D: Desk<Note = N>>(
        &mut self,
        alloc: Global,
        desk: &mut D,
        case: &Case,
        to: &RowName,
        id: RecordId,
    ) -> Result<Outcome, NodeFault>
        requires fits { Fits case.now (D.view desk.old) self.old }
        requires part { to.now.part < parts_of case.now.topology }
        requires handled { IfSome (D.view desk.old).told
            (λ _. is_handled id (D.view desk.old).seen ≡ true) }

        ensures fits { Fits case.now (D.view desk.new) self.new }
        ensures answers { let held = held_on case.now.topology self.old.held to.now in
            IfOk result (AnswersAck case.now.topology
            (D.view desk.old) (D.view desk.new) held to.now id self.old self.new) }
        ensures number { self.new.number ≡ self.old.number }

        ensures kept { OnErr result (HasKept self.old self.new) }
        ensures looked { OnErr result (HasLooked (D.view desk.old) (D.view desk.new)) }
        ensures fault { let asked = settle_asked case.now.topology self.old to.now id in
            IfErr result (FailsAsked (D.view desk.old) (D.view desk.new) asked) }

        ensures grown { HasGrown self.old.held (D.view desk.old) (D.view desk.new) }
        ensures marks { KeepsMarks (D.view desk.old) (D.view desk.new) }
        ensures loan { D.loan desk.new ≡ D.loan desk.old }
        ensures home { D.home desk.new ≡ D.home desk.old }
    {
        let interval = case.interval_of(to);
        let Some(held) = self.held.get(interval) else {
            return Ok(Outcome::NotMine);
        };
        if !held.is_pending(to, id) {
            return Ok(Outcome::Nothing);
        }
        let writing = Writing::Settle { id };
        self.put_on(alloc, desk, case, interval, to, writing, Vec::new(alloc))
    }
}
