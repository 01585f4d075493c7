//! The first example with its rows in a file, which is read back by the database and by a keeper.
use super::asking::{Told, count, has_rows};
use super::deeds::Deed;
use super::folder;
use super::lending::dropped;
use crate::tests::calls::{FIRST, called, sink};
use crate::tests::histories::{COUNTED, INJECTOR};
use crate::tests::loads::keeps_in;
use crate::tests::replays::TEXT;
use crate::tests::{made, must_hold};
use millwheel_cli::{Done, Status, after_closing};
use mw_ports::MemSink;
use row_keeper::Keeper;
use sqlite_keeper::SqliteKeeper;
use std::alloc::Global;
use std::process::Abort;

// A line that keeps the rows in a file, and the file's name.
type Keeping<'a> = (&'a str, &'a str);

// The rows that it leaves.
static ROWS: [Told; 2] = [(0, b"", INJECTOR), (1, b"a", COUNTED)];

// Runs a line over the example's files and this keeper: how that ended, and the keeper.
fn run<K: Keeper>(
    rt: &impl Abort,
    alloc: Global,
    line: &str,
    keeper: K,
    out: &mut MemSink,
) -> (Status, K) {
    let done = called(rt, alloc, line, FIRST, &[], keeper, out);
    let Done { status, keeper, .. } = done;
    (status, keeper)
}

// Runs the example over the file that the words of a line name, and closes that.
fn kept(host: &HostRuntime, rt: &impl Abort, keeping: Keeping<'_>, out: &mut MemSink) -> Status {
    let (line, store) = keeping;
    let is_named = keeps_in(rt, host.alloc(), line, Some(store));
    must_hold(rt, is_named, "the file is named");
    let keeper = made(rt, SqliteKeeper::at(host, store));
    let (status, keeper) = run(rt, host.alloc(), line, keeper, out);
    after_closing(status, keeper.close())
}

// Whether the example is run over a file and writes this; or where this is nothing, is not run, since the file has rows,
// and writes nothing.
fn runs(host: &HostRuntime, rt: &impl Abort, keeping: Keeping<'_>, text: &str) -> bool {
    let mut out = sink(host.alloc());
    let status = kept(host, rt, keeping, &mut out);
    let is_so = if text.is_empty() {
        matches!(&status, Status::NotEmpty { .. })
    } else {
        status.is_ok()
    };
    drop(status);
    let is_written = out.text() == text.as_bytes();
    drop(out);
    is_so && is_written
}

// The one run's line and file, and those of the two runs.
const ONE_RUN: Keeping<'static> = ("solo --keep one_run/k.db t.json e", "one_run/k.db");

const TWO_RUNS: Keeping<'static> = ("solo --keep two_runs/k.db t.json e", "two_runs/k.db");

#[test]
fn a_kept_run_leaves_its_rows_in_the_file(rt: HostRuntime) {
    folder::empty(&rt, &rt, "one_run");
    must_hold(&rt, runs(&rt, &rt, ONE_RUN, TEXT), "it is run");
    must_hold(
        &rt,
        has_rows(&rt, &rt, "one_run/k.db", &ROWS),
        "the database has its rows",
    );
    let is_found = dropped(&rt, &rt, "one_run/k.db", Deed::HasOne(COUNTED));
    must_hold(&rt, is_found, "a keeper has its row");
    folder::remove(&rt, &rt, "one_run");
}

#[test]
fn a_second_kept_run_is_refused_and_writes_nothing(rt: HostRuntime) {
    folder::empty(&rt, &rt, "two_runs");
    must_hold(&rt, runs(&rt, &rt, TWO_RUNS, TEXT), "it is run");
    must_hold(&rt, runs(&rt, &rt, TWO_RUNS, ""), "it is refused");
    must_hold(
        &rt,
        count(&rt, &rt, "two_runs/k.db") == 2,
        "its rows are left",
    );
    folder::remove(&rt, &rt, "two_runs");
}
