//! What is pending is put into the outbox again.
ghost use Rattle.std.specs.Prelude.{◌≡◌, All, IfErr, IfOk, OnErr, OnOk, length};
ghost use Rattle.std.specs.List.Sorted.{IsPermutation, IsSorted, IsStrictlySortedBy};
ghost use Rattle.std.specs.Ordering.{is_eq};
ghost use Rattle.run_history.specs.Cases.{intervals_of};
ghost use Rattle.book.specs.Desks.{DeskView};
ghost use Rattle.node.specs.Answers.{AnswersOlder, AnswersSweep, HasKept, again_cmp, older_than};
ghost use Rattle.node.specs.FireSteps.{AreAllWithin};
ghost use Rattle.node.specs.Fits.{Fits};
ghost use Rattle.node.specs.SweepSteps.{AreAgain, AreFoundBelow, HasFoundAt, IsOnceOf, IsVouched, IsVouchedRow};

use crate::node::Node;
use crate::outcome::{NodeFault, Outcome};
use book::{Desk, Seen};
use holdings::{Held, Holdings, Sent};
use mw_types::{NoMemory, RowName};
use run_history::Case;
use std::alloc::Global;
use std::cmp::Ordering;

impl<N: Seen> Node<N> {
    /// Puts all that is pending in the rows that it has into the outbox again, in the order of the
    /// records' ids: each once, and nothing else. Where a contract can see the keeper's rows no id
    /// stands twice.
    pub fn sweep<D: Desk<Note = N>>(
        &mut self,
        alloc: Global,
        desk: &D,
        case: &Case,
    ) -> Result<Outcome, NodeFault>
        requires fits { Fits case.now (D.view desk.now) self.old }

        ensures fits { Fits case.now (D.view desk.now) self.new }
        ensures every { (known : DeskView) → Fits case.now known self.old →
            Fits case.now known self.new }
        ensures answers { IfOk result (AnswersSweep (D.view desk.now) self.old self.new) }
        ensures rest { self.new ≡ record self.old { outbox = self.new.outbox } }
        ensures number { self.new.number ≡ self.old.number }

        ensures kept { OnErr result (HasKept self.old self.new) }
        ensures fault { IfErr result (λ fault. fault ≡ NodeFault.NoMemory) }
    {
        // The desk is asked nothing: that the worker fits it tells where the rows lie.
        let _desk = desk;
        let again = again_of(alloc, case, &self.held)?;
        self.outbox.make_room(again.len())?;
        let count = again.len() as u64;
        self.outbox.put_again(again);
        Ok(Outcome::Queued { count })
    }

    /// Puts what was there already at the sweep of this kind before into the outbox again, in the order
    /// of the records' ids: of all that is pending in the rows that it has, what is older than some entry,
    /// and nothing else. What was sent since that sweep may still be on its way. The first such sweep of a
    /// worker sends nothing again.
    pub fn sweep_older<D: Desk<Note = N>>(
        &mut self,
        alloc: Global,
        desk: &D,
        case: &Case,
    ) -> Result<Outcome, NodeFault>
        requires fits { Fits case.now (D.view desk.now) self.old }

        ensures fits { Fits case.now (D.view desk.now) self.new }
        ensures every { (known : DeskView) → Fits case.now known self.old →
            Fits case.now known self.new }
        ensures answers { IfOk result (AnswersOlder self.old self.new) }
        ensures rest { self.new ≡ record self.old { outbox = self.new.outbox } }
        ensures number { self.new.number ≡ self.old.number }

        ensures kept { OnErr result (HasKept self.old self.new) }
        ensures fault { IfErr result (λ fault. fault ≡ NodeFault.NoMemory) }
    {
        let _desk = desk;
        let all = again_of(alloc, case, &self.held)?;
        let next = behind(&all);
        let older = older_of(all, self.swept);
        self.outbox.make_room(older.len())?;
        self.swept = next;
        let count = older.len() as u64;
        self.outbox.put_again(older);
        Ok(Outcome::Queued { count })
    }
}

// The number behind that of the last entry that made one of these.
fn behind(again: &[Sent]) -> u64 {
    match again.last() {
        Some(sent) => sent.delivery.id.commit.saturating_add(1),
        None => 0,
    }
}

// Those of these that are older than the entry of this number.
fn older_of(again: Vec<Sent>, number: u64) -> Vec<Sent>
    ensures { result.items ≡ older_than number again.items }
{
    let mut older = again;
    older.retain(|sent| sent.delivery.id.commit < number);
    older
}

// All that is pending in rows that are held, in the order of the records' ids.
fn again_of(alloc: Global, case: &Case, held: &Holdings) -> Result<Vec<Sent>, NoMemory>
    requires within { AreAllWithin case.now.topology held.now }
    ensures { IfOk result (λ again. AreAgain held.now again.items) }
{
    let mut again = found_in(alloc, case, held)?;
    sort(&mut again)?;
    keep_once(&mut again);
    Ok(again)
}

// All that is pending in rows that are held, interval by interval.
fn found_in(alloc: Global, case: &Case, held: &Holdings) -> Result<Vec<Sent>, NoMemory>
    ensures { let count = length (intervals_of case.now.topology) in
        IfOk result (λ found. AreFoundBelow held.now count found.items) }
{
    let mut found = Vec::new(alloc);
    for interval in 0..case.interval_count() {
        push_pending(alloc, held, interval, &mut found)?;
    }
    Ok(found)
}

// Appends what is pending in what is held of an interval.
fn push_pending(
    alloc: Global,
    held: &Holdings,
    interval: u32,
    found: &mut Vec<Sent>,
) -> Result<(), NoMemory>
    ensures { OnOk result (HasFoundAt held.now interval found.old.items found.new.items) }
{
    let Some(here) = held.get(interval) else {
        return Ok(());
    };
    let mut sent = held.pending(alloc, interval)?.into_vec();
    vouch(here, &sent);
    found.append(&mut sent)?;
    Ok(())
}

// Looks at the row of each sender: what is pending in a row can be kept.
fn vouch(held: &Held, sent: &[Sent])
    ensures { All (IsVouched held.now) sent.now }
{
    for one in sent {
        vouch_for(held, &one.sender);
    }
}

// Looks at a row: what is pending in it can be kept.
fn vouch_for(held: &Held, name: &RowName)
    ensures { IsVouchedRow held.now name.now }
{
    if let Some(row) = held.row(name) {
        let _pending = &row.pending;
    }
}

// Sorts records that are sent again by their ids, and those of one id by their senders.
fn sort(again: &mut Vec<Sent>) -> Result<(), NoMemory>
    ensures same { IsPermutation again.old.items again.new.items }
    ensures sorted { OnOk result (IsSorted again_cmp again.new.items) }
{
    again.sort_by(|a, b| order(a, b))?;
    Ok(())
}

// Of records that have the same place in the order keeps the first.
fn keep_once(again: &mut Vec<Sent>)
    requires sorted { IsSorted again_cmp again.old.items }
    ensures sorted { IsStrictlySortedBy again_cmp again.new.items }
    ensures once { IsOnceOf again.old.items again.new.items }
{
    again.dedup_by(|a, b| is_tied(a, b));
}

// In which order two records are sent again.
fn order(a: &Sent, b: &Sent) -> Ordering
    ensures { result ≡ again_cmp a.now b.now }
{
    a.delivery
        .id
        .cmp(&b.delivery.id)
        .then(a.sender.cmp(&b.sender))
}

// Whether two records have the same place in the order.
fn is_tied(a: &Sent, b: &Sent) -> bool
    ensures { result ≡ is_eq (again_cmp a.now b.now) }
{
    order(a, b).is_eq()
}
