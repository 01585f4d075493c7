//! The passes of one worker.
ghost use Rattle.std.specs.Prelude.{◌≡◌, ◌++◌, ◌∷◌, [], OnErr, OnOk};

use crate::office::Office;
use crate::passes::MailPass;
use book::Seen;
use mw_types::NoMemory;
use std::alloc::Global;
use std::marker::Model;

// The passes of one worker, one of each mailbox, in the order of the mailboxes.
#[derive(Drop)]
pub(crate) struct PassList<N: Seen, J: Office> {
    pub(crate) all: Vec<MailPass<N, J>>,
}

impl<N: Seen, J: Office> Model for PassList<N, J> {
    ghost use Rattle.std.specs.Prelude.{List};
    ghost use Rattle.workers.specs.declared.passes.MailPass.{MailPass};

    ghost Value = { List (MailPass N J) };

    ghost view = { λ list. list.all.items };
}

impl<N: Seen, J: Office> PassList<N, J> {
    // No pass.
    pub(crate) fn new(alloc: Global) -> PassList<N, J>
        ensures none { result ≡ [] }
    {
        PassList {
            all: Vec::new(alloc),
        }
    }

    // Puts a pass behind all others.
    pub(crate) fn push(&mut self, pass: MailPass<N, J>) -> Result<(), NoMemory>
        ensures pushed { OnOk result (self.new ≡ self.old ++ pass ∷ []) }
        ensures same { OnErr result (self.new ≡ self.old) }
    {
        self.all.push(pass)?;
        Ok(())
    }
}
