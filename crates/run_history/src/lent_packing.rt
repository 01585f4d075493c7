//! What the entries of a history have beside their numbers, copied of entries that are lent.
ghost use Rattle.std.specs.Prelude.{◌≡◌, ◌<◌, IfOk, OnErr, length};
ghost use Rattle.mw_types.specs.declared.entry.Entry.TheVariants as entries;
ghost use Rattle.run_history.specs.Lent.{lent};
ghost use Rattle.run_history.specs.Naming.{name_at};
ghost use Rattle.run_history.specs.Packing.{HasNumbers, IsNext, IsPacked, KeepsDetails, counts_of, unpacked, with_entry};

use crate::details::Details;
use crate::entry_ref::EntryRef;
use crate::packed::{Numbers, Packed};
use mw_types::{Duplicate, Effects, NoMemory, Record, Timer};
use std::alloc::Global;

impl Details {
    // Copies the details of an entry.
    pub(crate) fn pack_lent(
        &mut self,
        alloc: Global,
        entry: &EntryRef<'_>,
    ) -> Result<Packed, NoMemory>
        ensures kept { KeepsDetails self.old self.new }
        ensures packed { IfOk result (λ p. IsPacked self.new p
            × (unpacked self.new p ≡ lent entry.now)) }
        ensures counted { IfOk result (λ p. IsNext (counts_of self.old) p
            × (counts_of self.new ≡ with_entry p (counts_of self.old))) }
        ensures same { OnErr result (counts_of self.new ≡ counts_of self.old) }
    {
        match self.numbers(entry)? {
            Some(numbers) => self.pack_lent_by(alloc, entry, numbers),
            None => self.pack_copy(alloc, entry),
        }
    }

    // Copies the details of an entry that has these numbers. A Claim, an Ack and a Purge have none, and take
    // no memory.
    fn pack_lent_by(
        &mut self,
        alloc: Global,
        entry: &EntryRef<'_>,
        numbers: Numbers,
    ) -> Result<Packed, NoMemory>
        requires { HasNumbers self.old.names (lent entry.now) numbers }
        ensures kept { KeepsDetails self.old self.new }
        ensures packed { IfOk result (λ p. IsPacked self.new p
            × (unpacked self.new p ≡ lent entry.now)) }
        ensures counted { IfOk result (λ p. IsNext (counts_of self.old) p
            × (counts_of self.new ≡ with_entry p (counts_of self.old))) }
        ensures same { OnErr result (counts_of self.new ≡ counts_of self.old) }
    {
        let Numbers { seq, row, commit } = numbers;
        match *entry {
            EntryRef::Claim { worker, interval } => Ok(Packed::Claim { worker, interval }),
            EntryRef::Inject {
                part,
                line,
                item,
                ..
            } => self.copy_inject(alloc, seq, part, line, item),
            EntryRef::Handle { id, effects, .. } => {
                self.copy_handle(alloc, numbers, id.index, effects)
            }
            EntryRef::Fire {
                timer,
                mark,
                effects,
                ..
            } => self.copy_fire(alloc, numbers, timer, mark, effects),
            EntryRef::Ack { id, .. } => Ok(Packed::Ack {
                seq,
                row,
                commit,
                index: id.index,
            }),
            EntryRef::Purge { .. } => Ok(Packed::Purge {
                seq,
                row,
                floor: commit,
            }),
        }
    }

    // Takes a copy of the record of an injected line.
    fn copy_inject(
        &mut self,
        alloc: Global,
        seq: u32,
        part: u32,
        line: u32,
        item: &Record,
    ) -> Result<Packed, NoMemory>
        ensures kept { KeepsDetails self.old self.new }
        ensures packed { IfOk result (λ p. IsPacked self.new p
            × (unpacked self.new p ≡ entries.Inject seq part line item.now)) }
        ensures counted { IfOk result (λ p. IsNext (counts_of self.old) p
            × (counts_of self.new ≡ with_entry p (counts_of self.old))) }
        ensures same { OnErr result (counts_of self.new ≡ counts_of self.old) }
    {
        let item = item.copy(alloc)?;
        self.pack_inject(seq, part, line, item)
    }

    // Takes a copy of what the handler of a record left, whose entry has these numbers.
    fn copy_handle(
        &mut self,
        alloc: Global,
        numbers: Numbers,
        index: u32,
        effects: &Effects,
    ) -> Result<Packed, NoMemory>
        requires name { numbers.row < length self.old.names }
        ensures kept { KeepsDetails self.old self.new }
        ensures packed { IfOk result (λ p. IsPacked self.new p × (unpacked self.new p
            ≡ entries.Handle numbers.seq (name_at self.old.names numbers.row)
            (record { commit = numbers.commit; index = index }) effects.now)) }
        ensures counted { IfOk result (λ p. IsNext (counts_of self.old) p
            × (counts_of self.new ≡ with_entry p (counts_of self.old))) }
        ensures same { OnErr result (counts_of self.new ≡ counts_of self.old) }
    {
        let effects = effects.copy(alloc)?;
        self.pack_handle(numbers, index, effects)
    }

    // Takes a copy of what the handler of a timer left, whose entry has these numbers.
    fn copy_fire(
        &mut self,
        alloc: Global,
        numbers: Numbers,
        timer: Timer,
        mark: u64,
        effects: &Effects,
    ) -> Result<Packed, NoMemory>
        requires name { numbers.row < length self.old.names }
        ensures kept { KeepsDetails self.old self.new }
        ensures packed { IfOk result (λ p. IsPacked self.new p × (unpacked self.new p
            ≡ entries.Fire numbers.seq (name_at self.old.names numbers.row) timer mark
            effects.now)) }
        ensures counted { IfOk result (λ p. IsNext (counts_of self.old) p
            × (counts_of self.new ≡ with_entry p (counts_of self.old))) }
        ensures same { OnErr result (counts_of self.new ≡ counts_of self.old) }
    {
        let effects = effects.copy(alloc)?;
        self.pack_fire(numbers, timer, mark, effects)
    }

    // Takes a copy of an entry as it is.
    fn pack_copy(&mut self, alloc: Global, entry: &EntryRef<'_>) -> Result<Packed, NoMemory>
        ensures kept { KeepsDetails self.old self.new }
        ensures packed { IfOk result (λ p. IsPacked self.new p
            × (unpacked self.new p ≡ lent entry.now)) }
        ensures counted { IfOk result (λ p. IsNext (counts_of self.old) p
            × (counts_of self.new ≡ with_entry p (counts_of self.old))) }
        ensures same { OnErr result (counts_of self.new ≡ counts_of self.old) }
    {
        let whole = entry.copied(alloc)?;
        self.pack_whole(whole)
    }
}
