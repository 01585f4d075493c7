//! What each entry of a history emits, told entry by entry.
ghost use Rattle.std.specs.Prelude.{◌≡◌, ◌++◌, ◌∷◌, ◌*◌, ◌<◌, ◌≤◌, ◌^◌, [], if◌then◌else◌, List, All, length, OnErr, OnOk};
ghost use Rattle.mw_types.specs.declared.delivery.Delivery.{Delivery as Sent};
ghost use Rattle.mw_types.specs.declared.entry.Entry.{Entry as Happened};
ghost use Rattle.topology.specs.Shapes.{Shape, parts_of, consumers_of};
ghost use Rattle.row_parts.specs.Contents.{IsId};
ghost use Rattle.run_history.specs.Lent.{lent};
ghost use Rattle.run_history.specs.Made.{productions_of, late_cause, emissions_made, emissions_of};
ghost use Rattle.run_history.specs.Runs.{run_of};
ghost use Rattle.run_history.specs.Printing.{IsOnPart, HasFollowed, KnowsLate, emissions_by, is_late_id, sends_made};

use crate::entry_ref::EntryRef;
use crate::made::{consumers, emit, production};
use mw_types::{
    EmissionList, NoMemory, NumberList, Production, ProductionList, Record, RecordId, Seq,
};
use std::alloc::Global;
use std::marker::Model;
use topology::Topology;

/// What is remembered of the entries of a history, so as to tell what the next one emits: which of
/// their deliveries are late. An entry that handles one doesn't say it.
#[derive(Drop)]
pub struct Emitter {
    // One number for each entry: how many late deliveries it made.
    late: NumberList,
}

impl Model for Emitter {
    ghost use Rattle.std.specs.Prelude.{ℕ, List};

    ghost Value = { List ℕ };

    ghost view = { λ emitter. emitter.late };
}

impl Emitter {
    /// An emitter that has followed no entry, which takes no memory.
    pub fn new(alloc: Global) -> Emitter
        ensures none { (shape : Shape) → HasFollowed shape [] result }
    {
        Emitter {
            late: Seq::new(alloc),
        }
    }

    /// How many entries it has followed.
    pub fn len(&self) -> usize
        ensures count { (shape : Shape) (history : List Happened) →
            HasFollowed shape history self.now → result ≡ length history }
    {
        self.late.len()
    }

    /// Appends what one more entry emits under its commit number, and has then followed it too.
    /// After a refusal the list may have some of it, and the emitter is as it was.
    pub fn follow(
        &mut self,
        alloc: Global,
        topology: &Topology,
        entry: &EntryRef<'_>,
        commit: u64,
        emissions: &mut EmissionList,
    ) -> Result<(), NoMemory>
        requires part { IsOnPart topology.now (lent entry.now) }
        requires few { length (productions_of (lent entry.now)) ≤ 8 }
        requires commit { commit < 2 ^ 32 }

        ensures emitted { OnOk result ((history : List Happened) →
            HasFollowed topology.now history self.old → emissions.new ≡ emissions.old
            ++ emissions_of topology.now (run_of topology.now history).made commit
            (lent entry.now)) }
        ensures followed { OnOk result ((history : List Happened) →
            HasFollowed topology.now history self.old →
            HasFollowed topology.now (history ++ (lent entry.now) ∷ []) self.new) }
        ensures parts { OnOk result (All (λ e. e.part < parts_of topology.now) emissions.old →
            All (λ e. e.part < parts_of topology.now) emissions.new) }
        ensures ids { OnOk result (All (λ e. IsId e.id) emissions.old →
            All (λ e. IsId e.id) emissions.new) }
        ensures unchanged { OnErr result (self.new ≡ self.old) }
    {
        let late = is_late(&self.late, entry);
        emit_all(alloc, topology, emissions, entry, late, commit)?;
        self.late.push(late_sends(topology, entry, late))
    }
}

// Whether the cause of an entry is late.
fn is_late(late: &NumberList, entry: &EntryRef<'_>) -> bool
    ensures { (made : List Sent) → KnowsLate late.now made →
        result ≡ late_cause made (lent entry.now) }
{
    match *entry {
        EntryRef::Inject { item, .. } => item.late,
        EntryRef::Handle { id, .. } => was_late(late, id),
        EntryRef::Fire { timer, .. } => timer.late,
        EntryRef::Claim { .. } | EntryRef::Ack { .. } | EntryRef::Purge { .. } => false,
    }
}

// Whether a late delivery was made under this id.
fn was_late(late: &NumberList, id: RecordId) -> bool
    ensures { result ≡ is_late_id late.now id }
{
    match late.get(id.commit as usize) {
        Some(sends) => id.index < *sends,
        None => false,
    }
}

// How many late deliveries an entry makes, by whether its cause is late.
fn late_sends(topology: &Topology, entry: &EntryRef<'_>, late: bool) -> u32
    requires part { IsOnPart topology.now (lent entry.now) }
    requires few { length (productions_of (lent entry.now)) ≤ 8 }
    ensures { result ≡ (if late then sends_made topology.now (lent entry.now) else 0) }
{
    if late { sends(topology, entry) } else { 0 }
}

// How many deliveries an entry makes: one of each production to each consumer.
fn sends(topology: &Topology, entry: &EntryRef<'_>) -> u32
    requires part { IsOnPart topology.now (lent entry.now) }
    requires few { length (productions_of (lent entry.now)) ≤ 8 }
    ensures { result ≡ sends_made topology.now (lent entry.now) }
{
    match *entry {
        EntryRef::Inject { part, .. } => consumers(topology, part).len() as u32,
        EntryRef::Handle { row, effects, .. } => sends_of(topology, row.part, &effects.productions),
        EntryRef::Fire { row, effects, .. } => sends_of(topology, row.part, &effects.productions),
        EntryRef::Claim { .. } | EntryRef::Ack { .. } | EntryRef::Purge { .. } => 0,
    }
}

// How many deliveries productions of a part become.
fn sends_of(topology: &Topology, part: u32, productions: &ProductionList) -> u32
    requires part { part < parts_of topology.now }
    requires few { length productions.now ≤ 8 }
    ensures { result ≡ length productions.now * length (consumers_of topology.now part) }
{
    (productions.len() * consumers(topology, part).len()) as u32
}

// Appends what an entry emits.
fn emit_all(
    alloc: Global,
    topology: &Topology,
    emissions: &mut EmissionList,
    entry: &EntryRef<'_>,
    late: bool,
    commit: u64,
) -> Result<(), NoMemory>
    requires part { IsOnPart topology.now (lent entry.now) }
    requires few { length (productions_of (lent entry.now)) ≤ 8 }

    ensures emitted { OnOk result (emissions.new
        ≡ emissions.old ++ emissions_by topology.now late commit (lent entry.now)) }
{
    match *entry {
        EntryRef::Inject { part, item, .. } => {
            emit_item(alloc, topology, emissions, part, item, late, commit)
        }
        EntryRef::Handle { row, effects, .. } => {
            let productions = effects.productions.as_slice();
            emit_unread(
                alloc,
                topology,
                emissions,
                row.part,
                productions,
                late,
                commit,
            )
        }
        EntryRef::Fire { row, effects, .. } => {
            let productions = effects.productions.as_slice();
            emit_unread(
                alloc,
                topology,
                emissions,
                row.part,
                productions,
                late,
                commit,
            )
        }
        EntryRef::Claim { .. } | EntryRef::Ack { .. } | EntryRef::Purge { .. } => Ok(()),
    }
}

// Appends an injected record, where nothing reads its stream.
fn emit_item(
    alloc: Global,
    topology: &Topology,
    emissions: &mut EmissionList,
    part: u32,
    item: &Record,
    late: bool,
    commit: u64,
) -> Result<(), NoMemory>
    requires part { part < parts_of topology.now }
    ensures { OnOk result (emissions.new ≡ emissions.old ++ emissions_made topology.now part
        (record { key = item.now.key; stamp = item.now.stamp; value = item.now.value } ∷ [])
        late commit) }
{
    if consumers(topology, part).is_empty() {
        let production = production(alloc, item)?;
        emit(alloc, emissions, part, &[production], late, commit)?;
    }
    Ok(())
}

// Appends the productions of a part, where nothing reads its stream.
fn emit_unread(
    alloc: Global,
    topology: &Topology,
    emissions: &mut EmissionList,
    part: u32,
    productions: &[Production],
    late: bool,
    commit: u64,
) -> Result<(), NoMemory>
    requires part { part < parts_of topology.now }
    requires few { length productions.now ≤ 8 }
    ensures { OnOk result (emissions.new
        ≡ emissions.old ++ emissions_made topology.now part productions.now late commit) }
{
    if consumers(topology, part).is_empty() {
        emit(alloc, emissions, part, productions, late, commit)?;
    }
    Ok(())
}
