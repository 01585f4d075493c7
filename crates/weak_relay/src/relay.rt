//! What a weak computation remembers.
ghost use Rattle.std.specs.Prelude.{◌≡◌, if◌then◌else◌, true, false, [], OnErr, OnOk};
ghost use Rattle.mw_types.specs.declared.identity.RecordId.{RecordId};
ghost use Rattle.weak_relay.specs.Relays.{holds, is_same, with_id, without_id};

use mw_types::{NoMemory, RecordId};
use std::alloc::Global;
use std::collections::BTreeSet;
use std::marker::Model;

/// The ids of the records whose acknowledgement a weak computation awaits, as it has sent them on.
///
/// An acknowledgement is handed back to who sent the record only while it is awaited. That is known
/// to the process alone: one that begins anew awaits nothing until a record comes once more.
#[derive(Drop)]
pub struct Relay {
    awaited: BTreeSet<RecordId>,
}

impl Model for Relay {
    ghost use Rattle.std.specs.Prelude.{List};
    ghost use Rattle.mw_types.specs.declared.identity.RecordId.{RecordId};

    ghost Value = { List RecordId };

    ghost view = { λ r. r.awaited.keys };
}

impl Relay {
    /// One that has sent nothing on yet, for which no memory is wanted.
    pub fn new(alloc: Global) -> Relay
        ensures empty { result ≡ [] }
    {
        let awaited = BTreeSet::new(alloc);
        Relay { awaited }
    }

    /// Notes that a record is about to be sent on. One that comes once more changes nothing. Only
    /// want of memory is refused.
    pub fn forward(&mut self, id: RecordId) -> Result<(), NoMemory>
        ensures held { OnOk result (self.new ≡ with_id id self.old) }
        ensures among { OnOk result ((other : RecordId) →
            holds self.new other
            ≡ (if is_same id other then true else holds self.old other)) }
        ensures unchanged { OnErr result (self.new ≡ self.old) }
    {
        self.awaited.insert(id)?;
        Ok(())
    }

    /// Notes that a record was acknowledged, and answers whether that was awaited: only then is the
    /// acknowledgement to be handed back.
    pub fn back(&mut self, id: RecordId) -> bool
        ensures held { result ≡ holds self.old id }
        ensures given { self.new ≡ without_id id self.old }
        ensures among { (other : RecordId) →
            holds self.new other
            ≡ (if is_same id other then false else holds self.old other) }
    {
        self.awaited.remove(&id)
    }

    /// Whether the acknowledgement of a record is awaited.
    pub fn holds(&self, id: RecordId) -> bool
        ensures held { result ≡ holds self.now id }
    {
        self.awaited.contains(&id)
    }

    /// Awaits nothing any more, as a process that begins anew.
    pub fn forget(&mut self)
        ensures empty { self.new ≡ [] }
    {
        self.awaited.clear();
    }
}
