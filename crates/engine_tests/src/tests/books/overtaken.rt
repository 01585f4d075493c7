//! A worker whose interval another has claimed since: what it writes or reports is refused as stale.
ghost use Rattle.std.specs.Prelude.{◌≡◌, ◌∷◌, []};
ghost use Rattle.mw_types.specs.declared.state.State.TheVariants.{Count};
ghost use Rattle.row_parts.specs.Contents.{fresh};
ghost use Rattle.engine_tests.specs.TestBooks.{HasRisen, IsOvertaken, later_lease};

use super::example::none_open;
use super::hands::Hands;
use super::plays::{Kept, Play, Setting};
use super::refused;
use super::tables::{Table, try_all};
use super::trials::{Trial, injected, lease_of, sight, stays};
use crate::tests::{made, must};
use book::{Book, Lease, WriteRefusal, Written};
use mw_types::END;
use row_keeper::Keeper;
use row_parts::Row;
use std::alloc::Global;
use std::process::Abort;

// A write of the first worker is stale, who has not seen the last claim.
fn write_is_stale<K: Keeper>(
    rt: &impl Abort,
    alloc: Global,
    book: &mut Book<'_, K>,
    hands: &Hands,
    row: &Row,
)
    requires overtaken { IsOvertaken book.old }
    requires row { row.now ≡ fresh (Count 0 []) }
    ensures overtaken { IsOvertaken book.new }
{
    let before = sight(book);
    let written = book.write(alloc, &hands.count, 3, &hands.a, row, &hands.handling);
    let why = refused(rt, written);
    stays(rt, book, &before, why, WriteRefusal::Stale { newer: 3 });
}

// Its report is stale, that the interval has no work.
fn report_is_stale<K: Keeper>(rt: &impl Abort, book: &mut Book<'_, K>, hands: &Hands)
    requires overtaken { IsOvertaken book.old }
    ensures overtaken { IsOvertaken book.new }
{
    let before = sight(book);
    let why = refused(rt, book.report(&hands.count, 3, END));
    let is_so = why.newer == 3 && sight(book) == before;
    must(rt, is_so, "the report is stale, and nothing changes");
}

// The commit number of what was written.
pub(crate) fn commit_of(written: Written) -> u64 {
    let commit = written.commit;
    drop(written);
    commit
}

// The second worker handles the record once the first could not.
fn handled_later<K: Keeper>(
    rt: &impl Abort,
    alloc: Global,
    book: &mut Book<'_, K>,
    hands: &Hands,
    lease: &Lease,
)
    requires overtaken { IsOvertaken book.old }
    requires lease { lease.now ≡ later_lease }
{
    let fresh = Row::new(alloc, none_open(alloc));
    write_is_stale(rt, alloc, book, hands, &fresh);
    report_is_stale(rt, book, hands);
    let written = book.write(alloc, lease, 4, &hands.a, &fresh, &hands.handling);
    drop(fresh);
    let written = made(rt, written);
    must(rt, commit_of(written) == 4, "the later worker handles");
}

// The first line is injected, and the second worker overtakes the first.
pub(crate) fn overtake<K: Keeper>(
    rt: &impl Abort,
    trial: Trial,
    book: &mut Book<'_, K>,
    hands: &Hands,
)
    requires risen { HasRisen 2 book.old }
{
    drop(injected(rt, trial, book, hands));
    let lease = lease_of(rt, made(rt, book.claim(trial.alloc, 1, 1)));
    handled_later(rt, trial.alloc, book, hands, &lease);
    drop(lease);
}

static SETTINGS: [Setting; 1] = [(Kept::Sound, 8, Play::Overtake)];

#[test]
fn stale_handle(rt: HostRuntime) {
    try_all(&rt, rt.alloc(), Table::Settings(&SETTINGS));
}
