//! The passes of a mailbox.
ghost use Rattle.std.specs.Prelude.{◌≡◌, ◌<◌, ◌∷◌, [], IfOk, length};
ghost use Rattle.crossbeam_queue.specs.Passes.{IsPassOf, view};
ghost use Rattle.workers.specs.Mailboxes.{beside};
ghost use Rattle.workers.specs.PassLists.{AllFrom, IsNewPass};

use crate::hand::{Counted, Dealt, Hand};
use crate::letter::Letter;
use crate::office::Office;
use book::Seen;
use crossbeam_queue::{Pass, RuledArrayQueue};
use mw_types::NoMemory;
use std::alloc::Global;

// A queue of letters that counts what is put and taken.
pub(crate) type Line<N, J> = RuledArrayQueue<Letter<N, J>, Hand, Counted>;

/// The right of one thread to put into a mailbox and to take from it, and its place among the passes of the
/// mailbox.
#[derive(Drop)]
pub struct MailPass<N: Seen, J: Office> {
    pub(crate) pass: Pass<Letter<N, J>, Hand>,
    pub(crate) place: u32,
}

impl<N: Seen, J: Office> MailPass<N, J> {
    /// The place of the pass in the list that its mailbox was made with.
    pub fn place(&self) -> u32
        ensures place { result ≡ self.now.place }
    {
        self.place
    }
}

// One more pass, at this place.
fn deal<N: Seen, J: Office>(
    line: &Line<N, J>,
    first: &mut MailPass<N, J>,
    place: u32,
) -> MailPass<N, J>
    requires pass { IsPassOf line.now first.old.pass }

    ensures pass { IsPassOf line.now first.new.pass }
    ensures same_place { first.new.place ≡ first.old.place }
    ensures beside { view first.new.pass ≡ beside (view first.old.pass) }
    ensures new { IsNewPass line.now place result.pass result.place }
{
    MailPass {
        pass: line.another::<Dealt>(&mut first.pass),
        place,
    }
}

// The one pass of a mailbox.
fn lone<N: Seen, J: Office>(
    alloc: Global,
    first: MailPass<N, J>,
) -> Result<Vec<MailPass<N, J>>, NoMemory>
    ensures passes { IfOk result (λ all. all.items ≡ first ∷ []) }
{
    let mut all = Vec::new(alloc);
    all.push(first)?;
    Ok(all)
}

// So many passes, of which this one is the first.
fn deal_all<N: Seen, J: Office>(
    alloc: Global,
    line: &Line<N, J>,
    first: MailPass<N, J>,
    passes: u32,
) -> Result<Vec<MailPass<N, J>>, NoMemory>
    requires some { 0 < passes }
    requires first { IsNewPass line.now 0 first.pass first.place }

    ensures passes { IfOk result (λ all.
        AllFrom (λ place p. IsNewPass line.now place p.pass p.place) 0 all.items) }
    ensures many { IfOk result (λ all. length all.items ≡ passes) }
{
    let mut all = Vec::new(alloc);
    all.push(first)?;
    for place in 1..passes {
        let next = deal(line, &mut all[0], place);
        all.push(next)?;
    }
    Ok(all)
}

// So many passes, of which this one is the first; where there is no other it stays as it is.
pub(crate) fn passes_of<N: Seen, J: Office>(
    alloc: Global,
    line: &Line<N, J>,
    first: MailPass<N, J>,
    passes: u32,
) -> Result<Vec<MailPass<N, J>>, NoMemory>
    requires some { 0 < passes }
    requires first { IsNewPass line.now 0 first.pass first.place }

    ensures passes { IfOk result (λ all.
        AllFrom (λ place p. IsNewPass line.now place p.pass p.place) 0 all.items) }
    ensures many { IfOk result (λ all. length all.items ≡ passes) }
    ensures alone { IfOk result (λ all. passes ≡ 1 → all.items ≡ first ∷ []) }
{
    if passes == 1 {
        lone(alloc, first)
    } else {
        deal_all(alloc, line, first, passes)
    }
}
