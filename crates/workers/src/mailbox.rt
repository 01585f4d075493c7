//! A mailbox.
ghost use Rattle.std.specs.Prelude.{◌≡◌, ◌<◌, ◌≤◌, length, All, IfErr, IfNone, IfOk, IfSome, OnErr, OnOk};
ghost use Rattle.crossbeam_queue.specs.Passes.{IsPassOf, ruled_capacity, view};
ghost use Rattle.outbox.specs.Messages.{IsAddressed};
ghost use Rattle.node.specs.Received.{note_of, outgoing_of};
ghost use Rattle.workers.specs.Mailboxes.{HasHeld, IsLeft, with_put, with_take};
ghost use Rattle.workers.specs.PassLists.{AllFrom, IsLonePass, IsNewPass};

use crate::hand::{Put, Taken};
use crate::letter::Letter;
use crate::office::Office;
use crate::passes::{Line, MailPass, passes_of};
use book::Seen;
use mw_types::NoMemory;
use node::Message;
use std::alloc::Global;
use std::marker::PhantomData;
use std::sync::Wait;

/// Messages on their way to one interval, first come first.
#[derive(Drop)]
pub struct Mailbox<N: Seen, J: Office> {
    pub(crate) line: Line<N, J>,
}

/// The mailbox had no room for a message, which comes back.
#[derive(Drop)]
pub struct Full<N: Seen> {
    /// The message.
    pub message: Message<N>,
}

impl<N: Seen, J: Office> Mailbox<N, J> {
    /// A mailbox with room for so many messages, and its passes, each with its place in the list.
    /// Where there is one pass it is alone: what it has put and taken tells how many messages are
    /// left.
    pub fn new(
        alloc: Global,
        capacity: u32,
        passes: u32,
    ) -> Result<(Mailbox<N, J>, Vec<MailPass<N, J>>), NoMemory>
        requires room { 0 < capacity }
        requires small { capacity ≤ 1024 }
        requires some { 0 < passes }
        requires few { passes ≤ 16 }

        ensures capacity { IfOk result (λ made. ruled_capacity made.0.line ≡ capacity) }
        ensures passes { IfOk result (λ made.
            AllFrom (λ place p. IsNewPass made.0.line place p.pass p.place) 0 made.1.items) }
        ensures many { IfOk result (λ made. length made.1.items ≡ passes) }
        ensures alone { IfOk result (λ made. passes ≡ 1 →
            All (λ p. IsLonePass made.0.line p.pass) made.1.items) }
    {
        let (line, pass) = Line::ruled(alloc, capacity as usize)?;
        let first = MailPass { pass, place: 0 };
        let all = passes_of(alloc, &line, first, passes)?;
        Ok((Mailbox { line }, all))
    }

    /// Puts a message behind all others, or hands it back where there is no room.
    pub fn push<R: Wait>(
        &self,
        rt: &R,
        pass: &mut MailPass<N, J>,
        message: Message<N>,
    ) -> Result<(), Full<N>>
        requires pass { IsPassOf self.now.line pass.old.pass }
        requires known { N.book (note_of message) ≡ J.book }
        requires addressed { IsAddressed J.shape (outgoing_of message) }

        ensures pass { IsPassOf self.now.line pass.new.pass }
        ensures place { pass.new.place ≡ pass.old.place }
        ensures put { OnOk result (view pass.new.pass ≡ with_put (view pass.old.pass)) }

        // The message comes back. At a moment of the call there was no room, over all passes, and a pass
        // that is alone has filled the mailbox itself.
        ensures same { IfErr result (λ full. full.message ≡ message) }
        ensures unchanged { OnErr result (view pass.new.pass ≡ view pass.old.pass) }
        ensures was_full { OnErr result
            (HasHeld (view pass.old.pass) (ruled_capacity self.now.line)) }
        ensures full { OnErr result (IsLeft (view pass.old.pass) (ruled_capacity self.now.line)) }
    {
        let letter = Letter {
            message,
            of: PhantomData,
        };
        match self.line.push_as::<Put, R>(rt, &mut pass.pass, letter) {
            Ok(()) => Ok(()),
            Err(letter) => {
                let Letter { message, of: _ } = letter;
                Err(Full { message })
            }
        }
    }

    /// Takes the first message.
    pub fn pop<R: Wait>(&self, rt: &R, pass: &mut MailPass<N, J>) -> Option<Message<N>>
        requires pass { IsPassOf self.now.line pass.old.pass }

        ensures pass { IsPassOf self.now.line pass.new.pass }
        ensures place { pass.new.place ≡ pass.old.place }
        ensures known { IfSome result (λ message. N.book (note_of message) ≡ J.book) }
        ensures addressed { IfSome result (λ message.
            IsAddressed J.shape (outgoing_of message)) }
        ensures taken { IfSome result (λ message.
            view pass.new.pass ≡ with_take (view pass.old.pass)) }

        // At a moment of the call none was there, over all passes, and a pass that is alone has taken all
        // that it put.
        ensures unchanged { IfNone result (view pass.new.pass ≡ view pass.old.pass) }
        ensures was_empty { IfNone result (HasHeld (view pass.old.pass) 0) }
        ensures empty { IfNone result (IsLeft (view pass.old.pass) 0) }
    {
        match self.line.pop_as::<Taken, R>(rt, &mut pass.pass) {
            Some(letter) => {
                let Letter { message, of: _ } = letter;
                Some(message)
            }
            None => None,
        }
    }
}
