//! What stands in a history, in short.
use crate::tests::must;
use book::Book;
use row_keeper::Keeper;
use run_history::{EntryRef, History};
use std::process::Abort;

// An entry in short. A claim has the worker and the interval; each other has the sequencer under which it
// was written, and then the line, the commit number of the record's id, the mark or the floor.
#[derive(Clone, Copy, PartialEq, Eq)]
pub(crate) enum Told {
    Claim(u32, u32),
    Inject(u64, u32),
    Handle(u64, u64),
    Ack(u64, u64),
    Fire(u64, u64),
    Purge(u64, u64),
}

// The entry that is there, in short.
fn in_short(entry: Option<EntryRef<'_>>) -> Option<Told> {
    match entry {
        Some(EntryRef::Claim { worker, interval }) => Some(Told::Claim(worker, interval)),
        Some(EntryRef::Inject { seq, line, .. }) => Some(Told::Inject(seq, line)),
        Some(EntryRef::Handle { seq, id, .. }) => Some(Told::Handle(seq, id.commit)),
        Some(EntryRef::Ack { seq, id, .. }) => Some(Told::Ack(seq, id.commit)),
        Some(EntryRef::Fire { seq, mark, .. }) => Some(Told::Fire(seq, mark)),
        Some(EntryRef::Purge { seq, floor, .. }) => Some(Told::Purge(seq, floor)),
        None => None,
    }
}

// These are the entries of a history, and no other.
pub(crate) fn are_told(rt: &impl Abort, history: &History, want: &[Told]) {
    must(rt, history.len() == want.len(), "how many entries");
    for (at, told) in want.iter().enumerate() {
        must(rt, in_short(history.get(at)) == Some(*told), at);
    }
}

// A book has these entries and these marks.
pub(crate) fn has_left<K: Keeper>(
    rt: &impl Abort,
    book: &Book<'_, K>,
    entries: &[Told],
    marks: &[u64],
) {
    are_told(rt, book.history(), entries);
    must(rt, book.marks() == marks, "the marks");
}
