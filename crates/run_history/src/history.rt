//! The list of what happened.
ghost use Rattle.std.specs.Prelude.{◌≡◌, ◌++◌, ◌∷◌, ◌↔◌, ◌<◌, ◌-◌, ◌==◌, [], length, option_map, slice_get, slice_index_or, take, IfOk, OnErr, OnOk, IsSome, option_to_list};
ghost use Rattle.run_history.specs.Lent.{lent};
ghost use Rattle.run_history.specs.Packing.{HasName, IsLast, IsWithout, counts_of};

use crate::details::Details;
use crate::entry_ref::EntryRef;
use crate::packed::Packed;
use mw_types::{Entry, EntryList, NoMemory, Seq};
use std::alloc::Global;
use std::marker::Model;

/// A history: what happened in a run, one entry for each atomic step.
#[derive(Drop)]
pub struct History {
    details: Details,
    entries: Seq<Packed>,
}

impl Model for History {
    ghost use Rattle.std.specs.Prelude.{List, map};
    ghost use Rattle.mw_types.specs.declared.entry.Entry.{Entry};
    ghost use Rattle.run_history.specs.Packing.{ArePacked, unpacked};

    ghost Value = { List Entry };

    ghost view = { λ history. map (unpacked history.details) history.entries };

    ghost invariant = { λ history. ArePacked history.details history.entries };
}

impl History {
    /// The history of a run in which nothing has happened, which takes no memory.
    pub fn new(alloc: Global) -> History
        ensures empty { result ≡ [] }
    {
        History {
            details: Details::new(alloc),
            entries: Seq::new(alloc),
        }
    }

    /// The entry of a commit number, which is its place from 0, or none past the end.
    pub fn get(&self, number: usize) -> Option<EntryRef<'_>>
        ensures entry { option_map lent result ≡ slice_get self.now number }
    {
        match self.entries.get(number) {
            Some(packed) => Some(self.details.lend(*packed)),
            None => None,
        }
    }

    /// The entry of a commit number that there is.
    pub fn at(&self, number: usize) -> EntryRef<'_>
        requires { number < length self.now }
        ensures { lent result ≡ slice_index_or self.now number (lent result) }
    {
        self.details.lend(self.entries.as_slice()[number])
    }

    /// The entries, as a list of its own.
    pub fn entries(&self, alloc: Global) -> Result<EntryList, NoMemory>
        ensures entries { IfOk result (λ entries. entries ≡ self.now) }
    {
        let mut entries = Seq::new(alloc);
        for number in 0..self.len() {
            entries.push(self.at(number).copied(alloc)?)?;
        }
        Ok(entries)
    }

    /// Appends what happened next.
    pub fn push(&mut self, entry: Entry) -> Result<(), NoMemory>
        ensures appended { OnOk result (self.new ≡ self.old ++ entry ∷ []) }
        ensures unchanged { OnErr result (self.new ≡ self.old) }
    {
        let packed = self.details.pack(entry)?;
        append(&mut self.details, &mut self.entries, packed)
    }

    /// Appends what happened next, of which only what the history keeps is copied.
    pub fn push_lent(&mut self, alloc: Global, entry: &EntryRef<'_>) -> Result<(), NoMemory>
        ensures appended { OnOk result (self.new ≡ self.old ++ lent entry.now ∷ []) }
        ensures unchanged { OnErr result (self.new ≡ self.old) }
    {
        let packed = self.details.pack_lent(alloc, entry)?;
        append(&mut self.details, &mut self.entries, packed)
    }

    /// Takes the last entry away.
    pub fn pop(&mut self) -> Option<Entry>
        ensures last { self.old ≡ self.new ++ option_to_list result }
        ensures some { IsSome result ↔ (0 < length self.old) }
        ensures rest { self.new ≡ take (length self.old - 1) self.old }
    {
        match self.entries.pop() {
            Some(packed) => Some(self.details.unpack(packed)),
            None => None,
        }
    }

    /// How many entries there are.
    pub fn len(&self) -> usize
        ensures count { result ≡ length self.now }
    {
        self.entries.len()
    }

    /// Whether nothing has happened yet.
    pub fn is_empty(&self) -> bool
        ensures { result ≡ (length self.now == 0) }
    {
        self.entries.is_empty()
    }
}

// Appends an entry whose details are the last, which are taken away where memory ran out.
fn append(details: &mut Details, entries: &mut Seq<Packed>, packed: Packed) -> Result<(), NoMemory>
    requires name { HasName details.old.names packed }
    requires last { IsLast (counts_of details.old) packed }
    ensures appended { OnOk result
        ((details.new ≡ details.old) × (entries.new ≡ entries.old ++ packed ∷ [])) }
    ensures unchanged { OnErr result
        (IsWithout packed details.old details.new × (entries.new ≡ entries.old)) }
{
    if let Err(NoMemory) = entries.push(packed) {
        drop(details.unpack(packed));
        return Err(NoMemory);
    }
    Ok(())
}
