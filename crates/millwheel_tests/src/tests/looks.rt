//! What a test asks of one call: each look is a call of its own, and answers a `bool`.
use super::calls::{Fault, Files, called, keeper, put, sink, sink_of};
use super::kept::are_kept;
use super::{is_said, made, must_hold};
use millwheel_cli::{Done, Status};
use mw_ports::MemSink;
use mw_types::RowName;
use row_keeper::{KeptRow, MemKeeper};
use run_history::{EntryRef, History};
use std::alloc::Global;
use std::process::Abort;

/// A row: its part, its key, and its bytes.
pub type Row<'a> = (u32, &'a str, &'a [u8]);

// The row h0 of part 1 with the byte 0.
const ROW: Row<'static> = (1, "h0", b"\0");

/// That row, alone.
pub const ONE_ROW: &[Row<'static>] = &[ROW];

/// An entry: its kind, and for what it is.
pub type Kind<'a> = (&'a str, u64);

/// A claim: the worker, and the interval.
pub type Claim = (u32, u32);

/// What is asked of a call that has ended.
#[derive(Clone, Copy)]
pub enum Look<'a> {
    /// It ended with Ok.
    Ends,
    /// It ended with Ok, and wrote this text.
    Writes(&'a str),
    /// The same of bytes.
    WritesBytes(&'a [u8]),
    /// It ended with Ok, and wrote a text that begins so.
    Begins(&'a str),
    /// It ended with Ok after so many entries, and wrote this text.
    Runs(&'a str, usize),
    /// It is refused with this message before a run begins.
    Refused(&'a str),
    /// Its history has so many entries.
    Entries(usize),
    /// The entry of this number is this one.
    Entry(usize, Kind<'a>),
    /// It ended with Ok after these claims, and sixty lines that were injected.
    Claims(&'a [Claim]),
    /// It ended with SinkFault, after so many entries and these bytes.
    Cut(usize, &'a str),
    /// It ended with SinkFault after so many bytes of this text, which has more; or well after all of them.
    CutAt(usize, &'a str),
    /// It leaves these rows, and no others.
    Leaves(&'a [Row<'a>]),
    /// It ended with Ok and no entry, and left these rows.
    Counted(&'a [Row<'a>]),
    /// It ended with KeeperFault after so many entries, and wrote nothing.
    Failed(usize),
    /// It has these entries, and leaves these rows.
    Left(&'a [Kind<'a>], &'a [Row<'a>]),
    /// It ended with KeeperFault, wrote nothing, and leaves the rows of its history.
    FailsWithItsRows,
    /// It did so after the first of these entries, so many; or ended well after all of them. It leaves their rows.
    Stops(usize, &'a [Kind<'a>]),
    /// It is refused before a run begins since there is the row h0 of part 1 with the byte 0, which it leaves.
    NotEmpty,
}

/// A call with its files, and what is asked of it, under a name.
pub type Case = (&'static str, &'static str, Files<'static>, Look<'static>);

/// The same on a bad day.
pub type BadCase = (
    &'static str,
    Fault<'static>,
    &'static str,
    Files<'static>,
    Look<'static>,
);

/// A line and its files, and the message with which they are refused.
pub type Refusal = (&'static str, Files<'static>, &'static str);

/// Ends the test where a call is not as its case has it, and names that.
pub(super) fn all_hold(rt: &impl Abort, alloc: Global, cases: &[Case]) {
    for (name, line, files, look) in cases {
        let is_so = seen(rt, alloc, line, files, Fault::Never, *look);
        must_hold(rt, is_so, *name);
    }
}

/// The same of cases on bad days.
pub(super) fn all_fail_so(rt: &impl Abort, alloc: Global, cases: &[BadCase]) {
    for (name, fault, line, files, look) in cases {
        must_hold(rt, seen(rt, alloc, line, files, *fault, *look), *name);
    }
}

/// Ends the test where a line with its files is not refused with its message, and names both.
pub(super) fn all_are_refused(rt: &impl Abort, alloc: Global, refusals: &[Refusal]) {
    for (line, files, message) in refusals {
        let look = Look::Refused(message);
        let is_so = seen(rt, alloc, line, files, Fault::Never, look);
        must_hold(rt, is_so, format_args!("{line}: {message}"));
    }
}

/// Whether a call with this line over these files, with a keeper without rows, is so on such a day.
pub(super) fn seen(
    rt: &impl Abort,
    alloc: Global,
    line: &str,
    files: Files<'_>,
    fault: Fault<'_>,
    look: Look<'_>,
) -> bool {
    let mut out = sink_of(rt, alloc, fault);
    let (reads, keeps): (&[u64], &[u64]) = match fault {
        Fault::Reads(of) => (of, &[]),
        Fault::Keeps(of) => (&[], of),
        _ => (&[], &[]),
    };
    let done = called(
        rt,
        alloc,
        line,
        files,
        reads,
        keeper(rt, alloc, keeps),
        &mut out,
    );
    let is_so = is_so(rt, alloc, &done, out.text(), look);
    drop(done);
    drop(out);
    is_so
}

/// The same of a day on which nothing fails, over a sink that has no text yet.
pub(super) fn seen_at(
    rt: &impl Abort,
    alloc: Global,
    line: &str,
    files: Files<'_>,
    out: &mut MemSink,
    look: Look<'_>,
) -> bool {
    let keeper = keeper(rt, alloc, &[]);
    let done = called(rt, alloc, line, files, &[], keeper, out);
    let is_so = is_so(rt, alloc, &done, out.text(), look);
    drop(done);
    is_so
}

/// The same over a keeper that has the row h0 of part 1 with the byte 0, and a new sink.
pub(super) fn seen_over_a_row(
    rt: &impl Abort,
    alloc: Global,
    line: &str,
    files: Files<'_>,
    look: Look<'_>,
) -> bool {
    let mut out = sink(alloc);
    let mut keeper = keeper(rt, alloc, &[]);
    put(rt, alloc, &mut keeper, "h0", 0);
    let done = called(rt, alloc, line, files, &[], keeper, &mut out);
    let is_so = is_so(rt, alloc, &done, out.text(), look);
    drop(done);
    drop(out);
    is_so
}

/// Whether a call that wrote this is so.
pub(super) fn is_so(
    rt: &impl Abort,
    alloc: Global,
    done: &Done<MemKeeper>,
    text: &[u8],
    look: Look<'_>,
) -> bool {
    let (status, history) = (&done.status, &done.history);
    match look {
        Look::Ends => status.is_ok(),
        Look::Writes(want) => status.is_ok() && text == want.as_bytes(),
        Look::WritesBytes(want) => status.is_ok() && text == want,
        Look::Begins(want) => status.is_ok() && text.starts_with(want.as_bytes()),
        Look::Runs(want, count) => {
            status.is_ok() && text == want.as_bytes() && history.len() == count
        }
        Look::Refused(message) => {
            let is_unbegun = history.is_empty() && text.is_empty();
            is_unbegun && is_said(rt, alloc, status, message)
        }
        Look::Entries(count) => history.len() == count,
        Look::Entry(number, want) => is_entry(history.get(number), want),
        Look::Claims(claims) => status.is_ok() && has_claims(history, claims),
        Look::Cut(count, want) => {
            let has_failed = matches!(status, Status::SinkFault);
            has_failed && history.len() == count && text == want.as_bytes()
        }
        Look::CutAt(length, want) => is_cut_at(status, text, length, want.as_bytes()),
        _ => has_left(rt, alloc, done, text, look),
    }
}

// The same of what is asked of rows and of the keeper's faults.
fn has_left(
    rt: &impl Abort,
    alloc: Global,
    done: &Done<MemKeeper>,
    text: &[u8],
    look: Look<'_>,
) -> bool {
    let (status, history, keeper) = (&done.status, &done.history, &done.keeper);
    let has_failed = matches!(status, Status::KeeperFault) && text.is_empty();
    match look {
        Look::Leaves(rows) => holds_rows(rt, alloc, keeper, rows),
        Look::Counted(rows) => {
            let is_counted = status.is_ok() && history.is_empty();
            is_counted && holds_rows(rt, alloc, keeper, rows)
        }
        Look::Failed(count) => has_failed && history.len() == count,
        Look::Left(want, rows) => {
            has_entries(history, want, want.len()) && holds_rows(rt, alloc, keeper, rows)
        }
        Look::FailsWithItsRows => has_failed && has_its_rows(rt, alloc, done),
        Look::Stops(count, want) => {
            let has_stopped = has_failed && count < want.len();
            let has_ended = status.is_ok() && count == want.len();
            (has_stopped || has_ended)
                && has_entries(history, want, count)
                && has_its_rows(rt, alloc, done)
        }
        _ => {
            let is_unbegun = history.is_empty() && text.is_empty();
            is_unbegun && names_the_row(status) && holds_rows(rt, alloc, keeper, ONE_ROW)
        }
    }
}

// Whether a call that could write so many bytes of a text ended with that.
fn is_cut_at(status: &Status, written: &[u8], length: usize, text: &[u8]) -> bool {
    match status {
        Status::SinkFault => {
            let is_short = length < text.len() && written.len() == length;
            is_short && text.starts_with(written)
        }
        Status::Ok => length >= text.len() && written == text,
        _ => false,
    }
}

// Whether an entry is there, and is this one: a claim by its interval, a line by its number, a record or an
// acknowledgement by the number of the entry that made it, a timer by its mark, a purge by its floor.
fn is_entry(entry: Option<EntryRef<'_>>, want: Kind<'_>) -> bool {
    let (kind, number) = match entry {
        Some(EntryRef::Claim { interval, .. }) => ("claim", u64::from(interval)),
        Some(EntryRef::Inject { line, .. }) => ("inject", u64::from(line)),
        Some(EntryRef::Handle { id, .. }) => ("handle", id.commit),
        Some(EntryRef::Fire { mark, .. }) => ("fire", mark),
        Some(EntryRef::Ack { id, .. }) => ("ack", id.commit),
        Some(EntryRef::Purge { floor, .. }) => ("purge", floor),
        None => ("none", 0),
    };
    kind == want.0 && number == want.1
}

// Whether a history has so many entries, the first of these.
fn has_entries(history: &History, want: &[Kind<'_>], count: usize) -> bool {
    let mut has = history.len() == count;
    for at in 0..history.len() {
        has = has && at < want.len() && is_entry(history.get(at), want[at]);
    }
    has
}

// Whether the claims of a history are these, and sixty lines were injected.
fn has_claims(history: &History, claims: &[Claim]) -> bool {
    let mut next = 0usize;
    let mut lines = 0u64;
    for at in 0..history.len() {
        match history.get(at) {
            Some(EntryRef::Claim { worker, interval }) => {
                if next >= claims.len() || claims[next] != (worker, interval) {
                    return false;
                }
                next += 1;
            }
            Some(EntryRef::Inject { .. }) => lines = lines.saturating_add(1),
            _ => {}
        }
    }
    next == claims.len() && lines == 60
}

// Whether the keeper has the rows of the history, and no others.
fn has_its_rows(rt: &impl Abort, alloc: Global, done: &Done<MemKeeper>) -> bool {
    let rows = made(rt, done.keeper.rows(alloc));
    let entries = made(rt, done.history.entries(alloc));
    let are_kept = are_kept(alloc, rows.as_slice(), entries.as_slice());
    drop(entries);
    drop(rows);
    are_kept
}

// Whether a status names the row that is there.
fn names_the_row(status: &Status) -> bool {
    match status {
        Status::NotEmpty { name, bytes } => is_row(name, bytes.as_slice(), &ROW),
        _ => false,
    }
}

/// Whether a row of this name and these bytes is this one.
pub(super) fn is_row(name: &RowName, bytes: &[u8], want: &Row<'_>) -> bool {
    let (part, key, wanted) = *want;
    name.part == part && name.key.text() == key && bytes == wanted
}

// Whether a keeper has these rows, and no others.
fn holds_rows(rt: &impl Abort, alloc: Global, keeper: &MemKeeper, want: &[Row<'_>]) -> bool {
    let rows = made(rt, keeper.rows(alloc));
    let are_rows = are_rows(rows.as_slice(), want);
    drop(rows);
    are_rows
}

/// Whether these are the rows.
pub(super) fn are_rows(rows: &[KeptRow], want: &[Row<'_>]) -> bool {
    let mut are = rows.len() == want.len();
    for (at, row) in rows.iter().enumerate() {
        are = are && at < want.len() && is_row(&row.name, row.bytes.as_slice(), &want[at]);
    }
    are
}
