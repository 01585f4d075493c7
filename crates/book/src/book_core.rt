//! All of a book but its case.
ghost use Rattle.std.specs.Prelude.{◌≡◌, ◌-◌, ◌++◌, ◌∷◌, ◌<◌, ◌^◌, [], length, max, take, IfOk, IfSome, None, OnOk, OnErr, Some, option_map, ◌↔◌};
ghost use Rattle.mw_types.specs.Causes.{HasCause};
ghost use Rattle.mw_types.specs.declared.entry.Entry.TheVariants.{Claim};
ghost use Rattle.row_parts.specs.Spelling.{IsSpelledRow, spelling_of};
ghost use Rattle.row_keeper.specs.Rows.{AreInOrder, with_row};
ghost use Rattle.run_history.specs.Lent.{lent};
ghost use Rattle.run_history.specs.Made.{row_written};
ghost use Rattle.run_history.specs.Fences.{last_claim};
ghost use Rattle.watermark.specs.Marks.{mark_of};
ghost use Rattle.book.specs.Marks.{with_mark};
ghost use Rattle.book.specs.Senders.{sender_of};
ghost use Rattle.std.specs.BTreeMap.{get};
ghost use Rattle.std.specs.Ordering.{nat_cmp};
ghost use Rattle.book.specs.Appending.{KnowsClaims, left_row};
ghost use Rattle.book.specs.Storing.{AreBytesOf, HaveShorter, grown_by};
ghost use Rattle.book.specs.Sending.{HasSent, IsAfterEntry, IsLeastKnown, IsUnsent, KnowsSame};

use crate::sender_map::{Senders, forget_sent, note_sent, settle, settled_by};
use crate::settling::Settled;
use crate::storing::{grown_by, store};
use mw_types::{Entry, NoMemory, RecordId, RowName};
use row_keeper::{Keeper, KeeperFault};
use row_parts::Row;
use run_history::{EntryRef, History};
use std::alloc::Global;
use std::collections::BTreeMap;
use std::marker::Model;

/// The history, the keeper, how many entries there may be, the last sequencer of each interval, how
/// much work is left, the unacknowledged ids, and the marks.
#[derive(Drop)]
pub struct Core<K: Keeper> {
    pub(crate) history: History,
    pub(crate) keeper: K,
    pub(crate) limit: u64,
    // The last claim of each interval that has one.
    pub(crate) sequencers: BTreeMap<u32, u64>,
    // The deliveries that are not acknowledged, the timers that are set, and the injectors with
    // lines left.
    pub(crate) work: u64,
    // Each id that is pending, with its sender's row.
    pub(crate) unacknowledged: Senders,
    // The mark of each interval, in whole microseconds.
    pub(crate) marks: Vec<u64>,
    // Room for the bytes of a row, kept from one write to the next.
    pub(crate) buffer: Vec<u8>,
}

impl<K: Keeper> Model for Core<K> {
    ghost use Rattle.std.specs.Ordering.{nat_cmp};
    ghost use Rattle.std.specs.BTreeMap.{get};
    ghost use Rattle.book.specs.Books.{CoreView};
    ghost use Rattle.book.specs.Appending.{KnowsClaims, left_row};

    ghost Value = { CoreView };

    ghost view = { λ c. record {
      history = c.history;
      limit = c.limit;
      rows = K.rows c.keeper;
      faults = K.faults c.keeper;
      work = c.work;
      unacknowledged = c.unacknowledged.entries;
      marks = c.marks.items;
    } };

    ghost invariant = { λ c. KnowsClaims (get nat_cmp c.sequencers) c.history };
}

impl<K: Keeper> Core<K> {
    // The commit number of the last claim of an interval.
    pub(crate) fn newest(&self, interval: u32) -> Option<u64>
        ensures last { result ≡ last_claim interval self.now.history }
    {
        self.sequencers.get(&interval).copied()
    }

    // Appends an entry on a row, which has made so many deliveries, and stores the bytes of the row that
    // it leaves: of this one, or of what this one is once an id is settled. So much work is left then.
    pub(crate) fn append(
        &mut self,
        alloc: Global,
        entry: &EntryRef<'_>,
        name: &RowName,
        row: &Row,
        settled: Option<Settled>,
        left: u64,
        sent: u32,
    ) -> Result<(), KeeperFault>
        requires below { IfSome settled (λ s. s.commit < 2 ^ 32) }
        requires held { IfSome settled
            (λ _. IfSome self.old.rows (AreBytesOf name.now row.now)) }
        requires shorter { IfSome (grown_by settled (lent entry.now) sent)
            (λ sent. IfSome self.old.rows (HaveShorter name.now sent row.now)) }
        requires on_row { row_written (lent entry.now) ≡ Some name.now }
        requires unsent { IsUnsent (length self.old.history) self.old.unacknowledged }
        ensures appended { OnOk result
            (self.new.history ≡ self.old.history ++ lent entry.now ∷ []) }
        ensures stored { let bytes = spelling_of (left_row settled row.now) in
            OnOk result (self.new.rows ≡ option_map (with_row name.now bytes) self.old.rows) }
        ensures own { OnOk result (IsSpelledRow (left_row settled row.now)) }
        ensures left { OnOk result (self.new.work ≡ left) }
        ensures senders { OnOk result (IsAfterEntry (length self.old.history) (lent entry.now)
            name.now sent self.old.unacknowledged self.new.unacknowledged) }
        ensures limit { self.new.limit ≡ self.old.limit }
        ensures marks { self.new.marks ≡ self.old.marks }
        ensures same_left { OnErr result (self.new.work ≡ self.old.work) }
        ensures same_senders { OnErr result
            (KnowsSame self.old.unacknowledged self.new.unacknowledged) }
        ensures history { OnErr result (self.new.history ≡ self.old.history) }
        ensures rows { OnErr result (self.new.rows ≡ self.old.rows) }
        ensures failed { HasCause self.old.faults self.new.faults result KeeperFault.Failed }
    {
        let commit = self.history.len() as u64;
        let acknowledged = settled_by(entry);
        let grown = grown_by(settled, entry, sent);
        note(
            alloc,
            &mut self.history,
            &mut self.unacknowledged,
            entry,
            name,
            sent,
        )?;
        if let Err(fault) = store(
            alloc,
            &mut self.keeper,
            &mut self.buffer,
            name,
            row,
            settled,
            grown,
        ) {
            forget_sent(&mut self.unacknowledged, commit, sent);
            forget_last(&mut self.history);
            return Err(fault);
        }
        settle(&mut self.unacknowledged, acknowledged, name);
        self.work = left;
        Ok(())
    }

    // Appends a claim.
    pub(crate) fn claim(&mut self, worker: u32, interval: u32) -> Result<(), NoMemory>
        requires few { length self.old.history < 2 ^ 32 }
        ensures appended { OnOk result
            (self.new.history ≡ self.old.history ++ Claim worker interval ∷ []) }
        ensures history { OnErr result (self.new.history ≡ self.old.history) }
        ensures rows { self.new.rows ≡ self.old.rows }
        ensures faults { self.new.faults ≡ self.old.faults }
        ensures left { self.new.work ≡ self.old.work }
        ensures limit { self.new.limit ≡ self.old.limit }
        ensures senders { self.new.unacknowledged ≡ self.old.unacknowledged }
        ensures marks { self.new.marks ≡ self.old.marks }
    {
        note_claim(&mut self.history, &mut self.sequencers, worker, interval)
    }

    // The least id that is unacknowledged, and its sender's row.
    pub(crate) fn first_sent(&self) -> Option<(RecordId, &RowName)>
        ensures sender { IfSome result
            (λ sent. sender_of self.now.unacknowledged sent.0 ≡ Some sent.1.now) }
        ensures least { IfSome result
            (λ sent. IsLeastKnown self.now.unacknowledged sent.0) }
        ensures none { (result ≡ None) ↔ (self.now.unacknowledged ≡ []) }
    {
        match self.unacknowledged.first_key_value() {
            Some((id, name)) => Some((*id, name)),
            None => None,
        }
    }

    // The mark of an interval.
    pub(crate) fn mark(&self, interval: u32) -> u64
        requires { interval < length self.now.marks }
        ensures { result ≡ mark_of self.now.marks interval }
    {
        self.marks[interval as usize]
    }

    // Raises the mark of an interval to this one, unless it is greater already, and answers it.
    pub(crate) fn raise(&mut self, interval: u32, mark: u64) -> u64
        requires { interval < length self.old.marks }
        ensures mark { result ≡ max (mark_of self.old.marks interval) mark }
        ensures raised { self.new ≡ record self.old {
          marks = with_mark interval result self.old.marks;
        } }
    {
        let raised = self.mark(interval).max(mark);
        self.marks[interval as usize] = raised;
        raised
    }
}

// Appends an entry to a history, and notes that its row sent so many deliveries.
fn note(
    alloc: Global,
    history: &mut History,
    senders: &mut Senders,
    entry: &EntryRef<'_>,
    name: &RowName,
    sent: u32,
) -> Result<(), NoMemory>
    requires unsent { IsUnsent (length history.old) senders.old.entries }
    ensures appended { OnOk result (history.new ≡ history.old ++ lent entry.now ∷ []) }
    ensures sent { OnOk result
        (HasSent (length history.old) name.now sent senders.old.entries senders.new.entries) }
    ensures unchanged { OnErr result (history.new ≡ history.old) }
    ensures same { OnErr result (KnowsSame senders.old.entries senders.new.entries) }
{
    let commit = history.len() as u64;
    history.push_lent(alloc, entry)?;
    if let Err(NoMemory) = note_sent(alloc, senders, commit, sent, name) {
        forget_last(history);
        return Err(NoMemory);
    }
    Ok(())
}

// Takes the last entry of a history away.
fn forget_last(history: &mut History)
    ensures { history.new ≡ take (length history.old - 1) history.old }
{
    drop(history.pop());
}

// Appends a claim to a history, and notes that it is the last of its interval.
fn note_claim(
    history: &mut History,
    sequencers: &mut BTreeMap<u32, u64>,
    worker: u32,
    interval: u32,
) -> Result<(), NoMemory>
    requires few { length history.old < 2 ^ 32 }
    requires knows { KnowsClaims (get nat_cmp sequencers.old) history.old }
    ensures knows { KnowsClaims (get nat_cmp sequencers.new) history.new }
    ensures appended { OnOk result (history.new ≡ history.old ++ Claim worker interval ∷ []) }
    ensures unchanged { OnErr result (history.new ≡ history.old) }
{
    let number = history.len() as u64;
    history.push(Entry::Claim { worker, interval })?;
    if let Err(_) = sequencers.insert(interval, number) {
        forget_last(history);
        return Err(NoMemory);
    }
    Ok(())
}
