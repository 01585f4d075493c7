//! The mailboxes of a run, and the passes of its workers.
ghost use Rattle.std.specs.Prelude.{◌≡◌, ◌<◌, ◌≤◌, ◌+◌, ℕ, [], All, IfOk, OnOk, length, slice_index_or};
ghost use Rattle.workers.specs.Boxes.{AreHandedOut, HavePasses};

use crate::mailbox::Mailbox;
use crate::office::Office;
use crate::pass_list::PassList;
use crate::passes::MailPass;
use book::Seen;
use mw_types::NoMemory;
use std::alloc::Global;

// How many messages one mailbox has room for.
const ROOM: u32 = 1024;

// The mailboxes of a run.
pub(crate) type Boxes<N, J> = Vec<Mailbox<N, J>>;

// Of each worker its passes, one of each mailbox.
pub(crate) type Passes<N, J> = Vec<PassList<N, J>>;

// So many lists of passes, with none in them.
fn no_passes<N: Seen, J: Office>(alloc: Global, workers: u32) -> Result<Passes<N, J>, NoMemory>
    ensures many { IfOk result (λ made. length made.items ≡ workers) }
    ensures passes { IfOk result (λ made. HavePasses 0 [] made.items) }
{
    let mut passes = Vec::new(alloc);
    for _ in 0..workers {
        passes.push(PassList::new(alloc))?;
    }
    Ok(passes)
}

// Each worker gets one pass of a mailbox.
fn hand_out<N: Seen, J: Office>(
    passes: &mut Passes<N, J>,
    made: Vec<MailPass<N, J>>,
) -> Result<(), NoMemory>
    requires many { length made.items ≡ length passes.old.items }
    ensures many { OnOk result (length passes.new.items ≡ length passes.old.items) }
    ensures handed { OnOk result
        (AreHandedOut made.items (length made.items) passes.old.items passes.new.items) }
{
    let mut at = 0usize;
    for pass in made {
        passes[at].push(pass)?;
        at += 1;
    }
    Ok(())
}

// One mailbox more, of which each worker gets a pass.
fn add_box<N: Seen, J: Office>(
    alloc: Global,
    boxes: &mut Boxes<N, J>,
    passes: &mut Passes<N, J>,
    workers: u32,
) -> Result<(), NoMemory>
    requires some { 0 < workers }
    requires few { workers ≤ 16 }
    requires many { length passes.old.items ≡ workers }
    requires passes { HavePasses (length boxes.old.items) boxes.old.items passes.old.items }

    ensures boxes { OnOk result (length boxes.new.items ≡ length boxes.old.items + 1) }
    ensures many { OnOk result (length passes.new.items ≡ workers) }
    ensures passes { OnOk result
        (HavePasses (length boxes.new.items) boxes.new.items passes.new.items) }
{
    let (mailbox, made) = Mailbox::new(alloc, ROOM, workers)?;
    hand_out(passes, made)?;
    boxes.push(mailbox)?;
    Ok(())
}

// One mailbox for each interval, and for each worker one pass of each.
pub(crate) fn boxes_for<N: Seen, J: Office>(
    alloc: Global,
    intervals: u32,
    workers: u32,
) -> Result<(Boxes<N, J>, Passes<N, J>), NoMemory>
    requires some { 0 < workers }
    requires few { workers ≤ 16 }

    ensures many { IfOk result (λ made. length made.1.items ≡ workers) }
    ensures passes { IfOk result (λ made. HavePasses intervals made.0.items made.1.items) }
{
    let mut boxes = Vec::new(alloc);
    let mut passes = no_passes(alloc, workers)?;
    for _ in 0..intervals {
        add_box(alloc, &mut boxes, &mut passes, workers)?;
    }
    Ok((boxes, passes))
}
