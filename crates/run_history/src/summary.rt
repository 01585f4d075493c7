//! The summary line of a history.
ghost use Rattle.std.specs.Prelude.{◌≡◌, ◌+◌, ◌++◌, ◌<◌, ◌^◌, [], ◌∷◌, if◌then◌else◌, count_by, IfOk, OnOk, string_bytes};
ghost use Rattle.run_history.specs.Lent.{lent};
ghost use Rattle.run_history.specs.Texts.{as_line, is_fire, is_handle, is_inject, is_late, summary_data};
ghost use Rattle.serde_json.specs.Data.{object};
ghost use Rattle.serde_json.specs.View.{members_view, view};

use crate::entry_ref::EntryRef;
use crate::history::History;
use crate::members::put_number;
use crate::text::value_line;
use mw_types::{Bytes, NoMemory};
use serde_json::{Map, Value};
use std::alloc::Global;

/// The summary line of a history, with its LF: the last line of its result.
pub fn summary_line(alloc: Global, history: &History) -> Result<Bytes, NoMemory>
    ensures written { IfOk result (λ text. text ≡ as_line (summary_data history.now)) }
{
    let value = summary(alloc, history)?;
    let line = value_line(alloc, &value)?;
    Ok(Bytes::from_vec(line.into_bytes()))
}

// The summary of a history, as an object.
fn summary(alloc: Global, history: &History) -> Result<Value, NoMemory>
    ensures { IfOk result (λ value. view value ≡ summary_data history.now) }
{
    let mut map = Map::new(alloc);
    put_counts(alloc, &mut map, history)?;
    Ok(Value::Object(map))
}

// Puts the counts of a history into an object that has nothing yet.
fn put_counts(
    alloc: Global,
    map: &mut Map<String, Value>,
    history: &History,
) -> Result<(), NoMemory>
    requires empty { map.old.entries ≡ [] }
    ensures { OnOk result (object (members_view map.new.entries) ≡ summary_data history.now) }
{
    let counts = counted(history);
    put_number(alloc, map, "fired", counts.fired)?;
    put_number(alloc, map, "handled", counts.handled)?;
    put_number(alloc, map, "injected", counts.injected)?;
    put_number(alloc, map, "late", counts.late)
}

// How many entries of each kind there are.
#[derive(Clone, Copy)]
struct Counts {
    fired: u64,
    handled: u64,
    injected: u64,
    late: u64,
}

// The counts of a history.
fn counted(history: &History) -> Counts
    ensures fired { result.fired ≡ count_by is_fire history.now }
    ensures handled { result.handled ≡ count_by is_handle history.now }
    ensures injected { result.injected ≡ count_by is_inject history.now }
    ensures late { result.late ≡ count_by is_late history.now }
{
    let mut counts = Counts {
        fired: 0,
        handled: 0,
        injected: 0,
        late: 0,
    };
    for n in 0..history.len() {
        counts = counts.with(&history.at(n));
    }
    counts
}

impl Counts {
    // The counts with one more entry.
    fn with(self, entry: &EntryRef<'_>) -> Counts
        requires fired { self.fired + 1 < 2 ^ 64 }
        requires handled { self.handled + 1 < 2 ^ 64 }
        requires injected { self.injected + 1 < 2 ^ 64 }
        requires late { self.late + 1 < 2 ^ 64 }

        ensures fired { result.fired ≡ self.fired + count_by is_fire (lent entry.now ∷ []) }
        ensures handled { result.handled ≡ self.handled + count_by is_handle (lent entry.now ∷ []) }
        ensures injected { result.injected
            ≡ self.injected + count_by is_inject (lent entry.now ∷ []) }
        ensures late { result.late ≡ self.late + count_by is_late (lent entry.now ∷ []) }
    {
        match *entry {
            EntryRef::Inject { item, .. } => self.with_inject(item.late),
            EntryRef::Handle { .. } => Counts {
                handled: self.handled + 1,
                ..self
            },
            EntryRef::Fire { .. } => Counts {
                fired: self.fired + 1,
                ..self
            },
            EntryRef::Claim { .. } | EntryRef::Ack { .. } | EntryRef::Purge { .. } => self,
        }
    }

    // The counts with one more injected record.
    fn with_inject(self, late: bool) -> Counts
        requires injected { self.injected + 1 < 2 ^ 64 }
        requires late { self.late + 1 < 2 ^ 64 }
        ensures { result ≡ record self {
          injected = self.injected + 1;
          late = self.late + (if late then 1 else 0);
        } }
    {
        Counts {
            injected: self.injected + 1,
            late: self.late + u64::from(late),
            ..self
        }
    }
}
