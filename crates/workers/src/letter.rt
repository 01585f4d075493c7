//! What lies in a mailbox.
use crate::office::Office;
use book::Seen;
use node::Message;
use std::marker::{Model, PhantomData};

/// A message whose note is of the office's book, and which names rows of its topology.
#[derive(Drop)]
pub struct Letter<N: Seen, J: Office> {
    pub(crate) message: Message<N>,
    pub(crate) of: PhantomData<J>,
}

impl<N: Seen, J: Office> Model for Letter<N, J> {
    ghost use Rattle.workers.specs.Mailboxes.{IsOfOffice};
    ghost use Rattle.node.specs.declared.message.Message.{Message};

    ghost Value = { Message N };

    ghost view = { λ letter. letter.message };

    ghost invariant = { λ letter. IsOfOffice N.book J.book J.shape letter.message };
}
