//! The calls of the example, one each, and what each needs and leaves.
ghost use Rattle.std.specs.Prelude.{◌≡◌, ◌≤◌, ◌<◌, ◌+◌, IfOk, OnErr, OnOk, Some, slice_get, take};
ghost use Rattle.mw_types.specs.declared.entry.Entry.TheVariants.{Claim};
ghost use Rattle.worked_examples.specs.Rising.{own_after, rise_history};
ghost use Rattle.engine_tests.specs.TestBooks.{HasRisen, IsLeft, first_lease, row_before};

use super::hands::Hands;
use book::{Book, ClaimRefusal, Claimed, Lease, Stale, WriteRefusal, Written};
use mw_types::RecordId;
use row_keeper::Keeper;
use row_parts::Row;
use std::alloc::Global;

// Worker 0 claims the interval whose number is the number of entries.
pub(crate) fn claim<K: Keeper>(
    alloc: Global,
    book: &mut Book<'_, K>,
    interval: u32,
) -> Result<Claimed, ClaimRefusal>
    requires risen { HasRisen interval book.old }
    requires interval { interval < 2 }
    ensures claimed { OnOk result (HasRisen (interval + 1) book.new) }
    ensures stayed { OnErr result (HasRisen interval book.new) }
    ensures lease { IfOk result (λ claimed. claimed.lease ≡ first_lease interval) }
{
    book.claim(alloc, 0, interval)
}

// The first record of entry 2.
pub(crate) const RECORD: RecordId = RecordId {
    commit: 2,
    index: 0,
};

// What comes next after so many of the entries: the first line is injected, its record is handled, its sender settles
// it, the timer of its window fires, and its row is purged.
pub(crate) fn next<K: Keeper>(
    alloc: Global,
    book: &mut Book<'_, K>,
    hands: &Hands,
    row: &Row,
    count: u64,
) -> Result<Written, WriteRefusal>
    requires risen { HasRisen count book.old }
    requires claimed { 2 ≤ count }
    requires there { count < 7 }
    requires row { row.now ≡ row_before count }
    ensures written { OnOk result (HasRisen (count + 1) book.new) }
    ensures stayed { OnErr result (HasRisen count book.new) }
    ensures left { IfOk result (λ written. IsLeft count written.row) }
{
    let source = &hands.source;
    let lease = &hands.count;
    match count {
        2 => book.write(alloc, source, 2, &hands.injector, row, &hands.injecting),
        3 => book.write(alloc, lease, 3, &hands.a, row, &hands.handling),
        4 => book.settle(alloc, source, 4, &hands.injector, row, RECORD),
        5 => book.write(alloc, lease, 5, &hands.a, row, &hands.firing),
        _ => book.purge(alloc, lease, 6, &hands.a, row, 6),
    }
}

// A worker reports the own work of an interval, after so many of the entries.
pub(crate) fn report<K: Keeper>(
    book: &mut Book<'_, K>,
    lease: &Lease,
    interval: u32,
    count: u64,
    own: u64,
) -> Result<u64, Stale>
    requires risen { HasRisen count book.old }
    requires lease { lease.now ≡ first_lease interval }
    requires interval { interval < 2 }
    requires claimed { slice_get (take count rise_history) interval ≡ Some (Claim 0 interval) }
    requires seen { interval < count }
    requires there { count ≤ 7 }
    requires own { own ≡ own_after count interval }
    ensures stayed { HasRisen count book.new }
{
    book.report(lease, count, own)
}
