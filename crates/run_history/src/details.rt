//! What the entries of a history have beside their numbers.
ghost use Rattle.std.specs.Prelude.{◌≡◌, ◌<◌, ◌++◌, ◌∷◌, [], IfOk, IfSome, OnErr, OnOk, length};
ghost use Rattle.mw_types.specs.declared.entry.Entry.TheVariants as entries;
ghost use Rattle.run_history.specs.Lent.{lent};
ghost use Rattle.run_history.specs.declared.packed.Packed.TheVariants.{Fire, Handle};
ghost use Rattle.run_history.specs.Naming.{IsNumbered, Keeps, name_at};
ghost use Rattle.run_history.specs.Packing.{HasName, HasNumbers, IsLast, IsNext, IsPacked, KeepsDetails, counts_of, none_yet, unpacked, with_entry};

use crate::entry_ref::EntryRef;
use crate::names::Names;
use crate::packed::{Numbers, Packed};
use mw_types::{Effects, Entry, NoMemory, Record, RecordId, RowName, Seq, Timer};
use std::alloc::Global;

/// What an entry has of a record that was handled, beside its numbers.
#[derive(Drop)]
pub(crate) struct Handled {
    index: u32,
    effects: Effects,
}

/// What an entry has of a timer that fired, beside its numbers.
#[derive(Drop)]
pub(crate) struct Fired {
    timer: Timer,
    mark: u64,
    effects: Effects,
}

/// The details of entries, each kind in the order of the entries.
#[derive(Drop)]
pub(crate) struct Details {
    names: Names,
    items: Seq<Record>,
    handled: Seq<Handled>,
    fired: Seq<Fired>,
    wholes: Seq<Entry>,
}

impl Details {
    // Those of no entry, which take no memory.
    pub(crate) fn new(alloc: Global) -> Details
        ensures none { counts_of result ≡ none_yet }
    {
        Details {
            names: Names::new(alloc),
            items: Seq::new(alloc),
            handled: Seq::new(alloc),
            fired: Seq::new(alloc),
            wholes: Seq::new(alloc),
        }
    }

    // Takes the details of an entry.
    pub(crate) fn pack(&mut self, entry: Entry) -> Result<Packed, NoMemory>
        ensures kept { KeepsDetails self.old self.new }
        ensures packed { IfOk result (λ p. IsPacked self.new p × (unpacked self.new p ≡ entry)) }
        ensures counted { IfOk result (λ p. IsNext (counts_of self.old) p
            × (counts_of self.new ≡ with_entry p (counts_of self.old))) }
        ensures same { OnErr result (counts_of self.new ≡ counts_of self.old) }
    {
        match self.numbers(&EntryRef::of(&entry)) {
            Ok(Some(numbers)) => self.pack_by(entry, numbers),
            Ok(None) => self.pack_whole(entry),
            Err(want) => {
                drop(entry);
                Err(want)
            }
        }
    }

    // The numbers of an entry, where they are below 2^32 and its row's name is short.
    pub(crate) fn numbers(&mut self, entry: &EntryRef<'_>) -> Result<Option<Numbers>, NoMemory>
        ensures kept { KeepsDetails self.old self.new }
        ensures same { counts_of self.new ≡ counts_of self.old }
        ensures numbers { IfOk result (λ found.
            IfSome found (HasNumbers self.new.names (lent entry.now))) }
    {
        match *entry {
            EntryRef::Claim { .. } => Ok(without_row(0)),
            EntryRef::Inject { seq, .. } => Ok(without_row(seq)),
            EntryRef::Handle { seq, row, id, .. } => with_row(&mut self.names, seq, row, id.commit),
            EntryRef::Fire { seq, row, .. } => with_row(&mut self.names, seq, row, 0),
            EntryRef::Ack { seq, row, id } => with_row(&mut self.names, seq, row, id.commit),
            EntryRef::Purge { seq, row, floor } => with_row(&mut self.names, seq, row, floor),
        }
    }

    // Takes the details of an entry that has these numbers.
    fn pack_by(&mut self, entry: Entry, numbers: Numbers) -> Result<Packed, NoMemory>
        requires { HasNumbers self.old.names entry numbers }
        ensures kept { KeepsDetails self.old self.new }
        ensures packed { IfOk result (λ p. IsPacked self.new p × (unpacked self.new p ≡ entry)) }
        ensures counted { IfOk result (λ p. IsNext (counts_of self.old) p
            × (counts_of self.new ≡ with_entry p (counts_of self.old))) }
        ensures same { OnErr result (counts_of self.new ≡ counts_of self.old) }
    {
        let Numbers { seq, row, commit } = numbers;
        match entry {
            Entry::Claim { worker, interval } => Ok(Packed::Claim { worker, interval }),
            Entry::Inject {
                part,
                line,
                item,
                ..
            } => self.pack_inject(seq, part, line, item),
            Entry::Handle {
                row: name,
                id,
                effects,
                ..
            } => {
                drop(name);
                self.pack_handle(numbers, id.index, effects)
            }
            Entry::Fire {
                row: name,
                timer,
                mark,
                effects,
                ..
            } => {
                drop(name);
                self.pack_fire(numbers, timer, mark, effects)
            }
            Entry::Ack { row: name, id, .. } => {
                drop(name);
                Ok(Packed::Ack {
                    seq,
                    row,
                    commit,
                    index: id.index,
                })
            }
            Entry::Purge { row: name, .. } => {
                drop(name);
                Ok(Packed::Purge {
                    seq,
                    row,
                    floor: commit,
                })
            }
        }
    }

    // Takes the record of an injected line.
    pub(crate) fn pack_inject(
        &mut self,
        seq: u32,
        part: u32,
        line: u32,
        item: Record,
    ) -> Result<Packed, NoMemory>
        ensures kept { KeepsDetails self.old self.new }
        ensures packed { IfOk result (λ p. IsPacked self.new p
            × (unpacked self.new p ≡ entries.Inject seq part line item)) }
        ensures counted { IfOk result (λ p. IsNext (counts_of self.old) p
            × (counts_of self.new ≡ with_entry p (counts_of self.old))) }
        ensures same { OnErr result (counts_of self.new ≡ counts_of self.old) }
    {
        let item = add(&mut self.items, item)?;
        Ok(Packed::Inject {
            seq,
            part,
            line,
            item,
        })
    }

    // Takes what the handler of a record left, whose entry has these numbers.
    pub(crate) fn pack_handle(
        &mut self,
        numbers: Numbers,
        index: u32,
        effects: Effects,
    ) -> Result<Packed, NoMemory>
        requires name { numbers.row < length self.old.names }
        ensures kept { KeepsDetails self.old self.new }
        ensures packed { IfOk result (λ p. IsPacked self.new p × (unpacked self.new p
            ≡ entries.Handle numbers.seq (name_at self.old.names numbers.row)
            (record { commit = numbers.commit; index = index }) effects)) }
        ensures counted { IfOk result (λ p. IsNext (counts_of self.old) p
            × (counts_of self.new ≡ with_entry p (counts_of self.old))) }
        ensures same { OnErr result (counts_of self.new ≡ counts_of self.old) }
    {
        let Numbers { seq, row, commit } = numbers;
        let handled = add(&mut self.handled, Handled { index, effects })?;
        Ok(Packed::Handle {
            seq,
            row,
            commit,
            handled,
        })
    }

    // Takes what the handler of a timer left, whose entry has these numbers.
    pub(crate) fn pack_fire(
        &mut self,
        numbers: Numbers,
        timer: Timer,
        mark: u64,
        effects: Effects,
    ) -> Result<Packed, NoMemory>
        requires name { numbers.row < length self.old.names }
        ensures kept { KeepsDetails self.old self.new }
        ensures packed { IfOk result (λ p. IsPacked self.new p × (unpacked self.new p
            ≡ entries.Fire numbers.seq (name_at self.old.names numbers.row) timer mark effects)) }
        ensures counted { IfOk result (λ p. IsNext (counts_of self.old) p
            × (counts_of self.new ≡ with_entry p (counts_of self.old))) }
        ensures same { OnErr result (counts_of self.new ≡ counts_of self.old) }
    {
        let Numbers { seq, row, .. } = numbers;
        let fired = Fired {
            timer,
            mark,
            effects,
        };
        let fired = add(&mut self.fired, fired)?;
        Ok(Packed::Fire { seq, row, fired })
    }

    // Takes an entry as it is.
    pub(crate) fn pack_whole(&mut self, entry: Entry) -> Result<Packed, NoMemory>
        ensures kept { KeepsDetails self.old self.new }
        ensures packed { IfOk result (λ p. IsPacked self.new p × (unpacked self.new p ≡ entry)) }
        ensures counted { IfOk result (λ p. IsNext (counts_of self.old) p
            × (counts_of self.new ≡ with_entry p (counts_of self.old))) }
        ensures same { OnErr result (counts_of self.new ≡ counts_of self.old) }
    {
        let whole = add(&mut self.wholes, entry)?;
        Ok(Packed::Whole { whole })
    }

    // Gives the last entry's details back, as that entry.
    pub(crate) fn unpack(&mut self, packed: Packed) -> Entry
        requires name { HasName self.old.names packed }
        requires last { IsLast (counts_of self.old) packed }
        ensures entry { result ≡ unpacked self.old packed }
        ensures kept { KeepsDetails self.new self.old }
        ensures names { self.new.names ≡ self.old.names }
        ensures counted { counts_of self.old ≡ with_entry packed (counts_of self.new) }
    {
        match packed {
            Packed::Claim { worker, interval } => Entry::Claim { worker, interval },
            Packed::Inject {
                seq,
                part,
                line,
                ..
            } => Entry::Inject {
                seq: u64::from(seq),
                part,
                line,
                item: self.items.pop().unwrap(),
            },
            Packed::Handle {
                seq,
                row,
                commit,
                handled,
            } => self.unpack_handle(seq, row, commit, handled),
            Packed::Fire { seq, row, fired } => self.unpack_fire(seq, row, fired),
            Packed::Ack {
                seq,
                row,
                commit,
                index,
            } => Entry::Ack {
                seq: u64::from(seq),
                row: self.names.again(row),
                id: id_of(commit, index),
            },
            Packed::Purge { seq, row, floor } => Entry::Purge {
                seq: u64::from(seq),
                row: self.names.again(row),
                floor: u64::from(floor),
            },
            Packed::Whole { .. } => self.wholes.pop().unwrap(),
        }
    }

    // The entry of the last record that was handled.
    fn unpack_handle(&mut self, seq: u32, row: u32, commit: u32, handled: u32) -> Entry
        requires name { row < length self.old.names }
        requires last { IsLast (counts_of self.old) (Handle seq row commit handled) }
        ensures entry { result ≡ unpacked self.old (Handle seq row commit handled) }
        ensures kept { KeepsDetails self.new self.old }
        ensures names { self.new.names ≡ self.old.names }
        ensures counted { counts_of self.old
            ≡ with_entry (Handle seq row commit handled) (counts_of self.new) }
    {
        let Handled { index, effects } = self.handled.pop().unwrap();
        Entry::Handle {
            seq: u64::from(seq),
            row: self.names.again(row),
            id: id_of(commit, index),
            effects,
        }
    }

    // The entry of the last timer that fired.
    fn unpack_fire(&mut self, seq: u32, row: u32, fired: u32) -> Entry
        requires name { row < length self.old.names }
        requires last { IsLast (counts_of self.old) (Fire seq row fired) }
        ensures entry { result ≡ unpacked self.old (Fire seq row fired) }
        ensures kept { KeepsDetails self.new self.old }
        ensures names { self.new.names ≡ self.old.names }
        ensures counted { counts_of self.old
            ≡ with_entry (Fire seq row fired) (counts_of self.new) }
    {
        let Fired {
            timer,
            mark,
            effects,
        } = self.fired.pop().unwrap();
        Entry::Fire {
            seq: u64::from(seq),
            row: self.names.again(row),
            timer,
            mark,
            effects,
        }
    }

    // An entry, lent.
    pub(crate) fn lend(&self, packed: Packed) -> EntryRef<'_>
        requires { IsPacked self.now packed }
        ensures { lent result ≡ unpacked self.now packed }
    {
        match packed {
            Packed::Claim { worker, interval } => EntryRef::Claim { worker, interval },
            Packed::Inject {
                seq,
                part,
                line,
                item,
            } => EntryRef::Inject {
                seq: u64::from(seq),
                part,
                line,
                item: &self.items.as_slice()[item as usize],
            },
            Packed::Handle {
                seq,
                row,
                commit,
                handled,
            } => self.lend_handle(seq, row, commit, handled),
            Packed::Fire { seq, row, fired } => self.lend_fire(seq, row, fired),
            Packed::Ack {
                seq,
                row,
                commit,
                index,
            } => EntryRef::Ack {
                seq: u64::from(seq),
                row: self.names.get(row),
                id: id_of(commit, index),
            },
            Packed::Purge { seq, row, floor } => EntryRef::Purge {
                seq: u64::from(seq),
                row: self.names.get(row),
                floor: u64::from(floor),
            },
            Packed::Whole { whole } => EntryRef::of(&self.wholes.as_slice()[whole as usize]),
        }
    }

    // The entry of a record that was handled, lent.
    fn lend_handle(&self, seq: u32, row: u32, commit: u32, handled: u32) -> EntryRef<'_>
        requires { IsPacked self.now (Handle seq row commit handled) }
        ensures { lent result ≡ unpacked self.now (Handle seq row commit handled) }
    {
        let handled = &self.handled.as_slice()[handled as usize];
        EntryRef::Handle {
            seq: u64::from(seq),
            row: self.names.get(row),
            id: id_of(commit, handled.index),
            effects: &handled.effects,
        }
    }

    // The entry of a timer that fired, lent.
    fn lend_fire(&self, seq: u32, row: u32, fired: u32) -> EntryRef<'_>
        requires { IsPacked self.now (Fire seq row fired) }
        ensures { lent result ≡ unpacked self.now (Fire seq row fired) }
    {
        let fired = &self.fired.as_slice()[fired as usize];
        EntryRef::Fire {
            seq: u64::from(seq),
            row: self.names.get(row),
            timer: fired.timer,
            mark: fired.mark,
            effects: &fired.effects,
        }
    }
}

// Appends a detail, and answers its number. There is room for 2^32 of a kind.
fn add<X: Drop>(details: &mut Seq<X>, detail: X) -> Result<u32, NoMemory>
    ensures number { IfOk result (λ number. number ≡ length details.old) }
    ensures added { OnOk result (details.new ≡ details.old ++ detail ∷ []) }
    ensures unchanged { OnErr result (details.new ≡ details.old) }
{
    let Ok(number) = u32::try_from(details.len()) else {
        return Err(NoMemory);
    };
    details.push(detail)?;
    Ok(number)
}

// The numbers of an entry on no row.
fn without_row(seq: u64) -> Option<Numbers>
    ensures { IfSome result (λ numbers. numbers.seq ≡ seq) }
{
    match u32::try_from(seq) {
        Ok(seq) => Some(Numbers {
            seq,
            row: 0,
            commit: 0,
        }),
        Err(_) => None,
    }
}

// The numbers of an entry on a row.
fn with_row(
    names: &mut Names,
    seq: u64,
    row: &RowName,
    commit: u64,
) -> Result<Option<Numbers>, NoMemory>
    ensures kept { Keeps names.old names.new }
    ensures numbers { IfOk result (λ found. IfSome found (λ numbers. (numbers.seq ≡ seq)
        × (numbers.commit ≡ commit) × IsNumbered names.new numbers.row row.now)) }
{
    let (Ok(seq), Ok(commit)) = (u32::try_from(seq), u32::try_from(commit)) else {
        return Ok(None);
    };
    match names.number(row)? {
        Some(row) => Ok(Some(Numbers { seq, row, commit })),
        None => Ok(None),
    }
}

// The id of a record.
fn id_of(commit: u32, index: u32) -> RecordId
    ensures commit { result.commit ≡ commit }
    ensures index { result.index ≡ index }
{
    RecordId {
        commit: u64::from(commit),
        index,
    }
}
