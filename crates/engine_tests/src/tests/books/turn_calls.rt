//! Each call of a turn, in a turn of its own, over a keeper that tells no row.
ghost use Rattle.std.specs.Prelude.{◌≡◌, ◌<◌, ◌≤◌, ◌^◌, IfSome, IsSome, None, Some, length, true};
ghost use Rattle.row_parts.specs.Contents.{found_delivery};
ghost use Rattle.run_history.specs.Fences.{interval_of};
ghost use Rattle.run_history.specs.Fits.{fits};
ghost use Rattle.run_history.specs.Legal.{MayClaim};
ghost use Rattle.run_history.specs.Runs.{run_of};
ghost use Rattle.book.specs.Proposals.{IsProposable};
ghost use Rattle.shared_book.specs.Lists.{IsIn};
ghost use Rattle.shared_book.specs.Turns.{IsHere};
ghost use Rattle.engine_tests.specs.TestSeats.{AreLoadedUnderLow, HasGoneOn, IsAtRest};

use super::overtaken::commit_of;
use super::trials::lease_of;
use crate::tests::made;
use book::{Lease, Proposal, Written};
use history_laws::safe_marks_are_under_low_watermarks;
use mw_types::{RecordId, RowName};
use row_keeper::Keeper;
use row_parts::Row;
use shared_book::{Note, Seat, Shared};
use std::alloc::Global;
use std::process::Abort;

// An interval is claimed.
pub(crate) fn claimed<K: Keeper>(
    rt: &impl Abort,
    alloc: Global,
    shared: &Shared<'_, K>,
    seat: &mut Seat<K>,
    worker: u32,
    interval: u32,
) -> Lease
    requires rest { let table = shared.now.table.shared in let v = seat.old.place.me.0 in
        IsAtRest table.table_id shared.now.case.now v.basis.seats v.numbers seat.old.place }
    requires may { MayClaim shared.now.case.now worker interval }
    ensures rest { let table = shared.now.table.shared in let v = seat.old.place.me.0 in
        IsAtRest table.table_id shared.now.case.now v.basis.seats v.numbers seat.new.place }
    ensures on { HasGoneOn seat.old.place.me.0 seat.new.place.me.0 }
    ensures held { IsIn result seat.new.place.me.0.leases }
    ensures of { result.interval ≡ interval }
{
    match seat.try_turn(&*shared) {
        Ok(turn) => {
            let mut turn = turn;
            let claimed = turn.claim(alloc, worker, interval);
            turn.release();
            lease_of(rt, made(rt, claimed))
        }
        Err(_) => rt.panic("another has the turn"),
    }
}

// A row is written anew.
pub(crate) fn written<K: Keeper>(
    rt: &impl Abort,
    alloc: Global,
    shared: &Shared<'_, K>,
    seat: &mut Seat<K>,
    lease: &Lease,
    name: &RowName,
    row: &Row,
    proposal: &Proposal,
) -> Written
    requires rest { let table = shared.now.table.shared in let v = seat.old.place.me.0 in
        IsAtRest table.table_id shared.now.case.now v.basis.seats v.numbers seat.old.place }
    requires untold { seat.old.place.me.0.basis.told ≡ None }
    requires held { IsIn lease.now seat.old.place.me.0.leases }
    requires covers { interval_of shared.now.case.now.topology name.now ≡ Some lease.now.interval }
    requires fit { let seen = length seat.old.place.me.0.front in
        fits shared.now.case.now seen name.now row.now ≡ true }
    requires proposal { IsProposable shared.now.case.now name.now row.now proposal.now }
    ensures rest { let table = shared.now.table.shared in let v = seat.old.place.me.0 in
        IsAtRest table.table_id shared.now.case.now v.basis.seats v.numbers seat.new.place }
    ensures on { HasGoneOn seat.old.place.me.0 seat.new.place.me.0 }
    ensures fit { let seen = length seat.new.place.me.0.front in
        fits shared.now.case.now seen name.now result.row ≡ true }
{
    match seat.try_turn(&*shared) {
        Ok(turn) => {
            let mut turn = turn;
            let written = turn.write(alloc, lease, name, row, proposal);
            turn.release();
            made(rt, written)
        }
        Err(_) => rt.panic("another has the turn"),
    }
}

// A row no longer waits for an id, which is pending there.
pub(crate) fn settled<K: Keeper>(
    rt: &impl Abort,
    alloc: Global,
    shared: &Shared<'_, K>,
    seat: &mut Seat<K>,
    lease: &Lease,
    name: &RowName,
    row: &Row,
    id: RecordId,
) -> u64
    requires rest { let table = shared.now.table.shared in let v = seat.old.place.me.0 in
        IsAtRest table.table_id shared.now.case.now v.basis.seats v.numbers seat.old.place }
    requires untold { seat.old.place.me.0.basis.told ≡ None }
    requires held { IsIn lease.now seat.old.place.me.0.leases }
    requires covers { interval_of shared.now.case.now.topology name.now ≡ Some lease.now.interval }
    requires fit { let seen = length seat.old.place.me.0.front in
        fits shared.now.case.now seen name.now row.now ≡ true }
    requires pending { IsSome (found_delivery id row.now.pending) }
    ensures rest { let table = shared.now.table.shared in let v = seat.old.place.me.0 in
        IsAtRest table.table_id shared.now.case.now v.basis.seats v.numbers seat.new.place }
    ensures on { HasGoneOn seat.old.place.me.0 seat.new.place.me.0 }
{
    match seat.try_turn(&*shared) {
        Ok(turn) => {
            let mut turn = turn;
            let written = turn.settle(alloc, lease, name, row, id);
            turn.release();
            commit_of(made(rt, written))
        }
        Err(_) => rt.panic("another has the turn"),
    }
}

// A row forgets the ids below a floor, which is above its own.
pub(crate) fn purged<K: Keeper>(
    rt: &impl Abort,
    alloc: Global,
    shared: &Shared<'_, K>,
    seat: &mut Seat<K>,
    lease: &Lease,
    name: &RowName,
    row: &Row,
    floor: u64,
) -> u64
    requires rest { let table = shared.now.table.shared in let v = seat.old.place.me.0 in
        IsAtRest table.table_id shared.now.case.now v.basis.seats v.numbers seat.old.place }
    requires untold { seat.old.place.me.0.basis.told ≡ None }
    requires held { IsIn lease.now seat.old.place.me.0.leases }
    requires covers { interval_of shared.now.case.now.topology name.now ≡ Some lease.now.interval }
    requires fit { let seen = length seat.old.place.me.0.front in
        fits shared.now.case.now seen name.now row.now ≡ true }
    requires rises { row.now.floor < floor }
    requires few { floor ≤ 2 ^ 32 }
    ensures rest { let table = shared.now.table.shared in let v = seat.old.place.me.0 in
        IsAtRest table.table_id shared.now.case.now v.basis.seats v.numbers seat.new.place }
    ensures on { HasGoneOn seat.old.place.me.0 seat.new.place.me.0 }
{
    match seat.try_turn(&*shared) {
        Ok(turn) => {
            let mut turn = turn;
            let written = turn.purge(alloc, lease, name, row, floor);
            turn.release();
            commit_of(made(rt, written))
        }
        Err(_) => rt.panic("another has the turn"),
    }
}

// How much work is left.
pub(crate) fn left<K: Keeper>(rt: &impl Abort, shared: &Shared<'_, K>, seat: &mut Seat<K>) -> u64
    requires rest { let table = shared.now.table.shared in let v = seat.old.place.me.0 in
        IsAtRest table.table_id shared.now.case.now v.basis.seats v.numbers seat.old.place }
    ensures rest { let table = shared.now.table.shared in let v = seat.old.place.me.0 in
        IsAtRest table.table_id shared.now.case.now v.basis.seats v.numbers seat.new.place }
    ensures on { HasGoneOn seat.old.place.me.0 seat.new.place.me.0 }
{
    match seat.try_turn(&*shared) {
        Ok(turn) => {
            let mut turn = turn;
            let left = turn.unfinished();
            turn.release();
            left
        }
        Err(_) => rt.panic("another has the turn"),
    }
}

// The turn is taken and given back. What the seat had loaded of a part's marks before, whoever had raised them and when,
// is at most the part's low watermark in what the turn found.
pub(crate) fn caught_up<K: Keeper>(rt: &impl Abort, shared: &Shared<'_, K>, seat: &mut Seat<K>)
    requires rest { let table = shared.now.table.shared in let v = seat.old.place.me.0 in
        IsAtRest table.table_id shared.now.case.now v.basis.seats v.numbers seat.old.place }
    ensures rest { let table = shared.now.table.shared in let v = seat.old.place.me.0 in
        IsAtRest table.table_id shared.now.case.now v.basis.seats v.numbers seat.new.place }
    ensures on { HasGoneOn seat.old.place.me.0 seat.new.place.me.0 }
    ensures low { let case = shared.now.case.now in let v = seat.old.place.me.0 in
        let run = run_of case.topology seat.new.place.me.0.front in
        IfSome v.basis.told (λ _. AreLoadedUnderLow case run v.marks) }
{
    safe_marks_are_under_low_watermarks();
    match seat.try_turn(&*shared) {
        Ok(turn) => turn.release(),
        Err(_) => rt.panic("another has the turn"),
    }
}

// A mark is loaded.
pub(crate) fn loaded<K: Keeper>(shared: &Shared<'_, K>, seat: &mut Seat<K>, interval: u32) -> u64
    requires rest { let table = shared.now.table.shared in let v = seat.old.place.me.0 in
        IsAtRest table.table_id shared.now.case.now v.basis.seats v.numbers seat.old.place }
    requires there { interval < 2 }
    ensures rest { let table = shared.now.table.shared in let v = seat.old.place.me.0 in
        IsAtRest table.table_id shared.now.case.now v.basis.seats v.numbers seat.new.place }
    ensures on { HasGoneOn seat.old.place.me.0 seat.new.place.me.0 }
{
    shared.mark(seat, interval)
}

// A mark is raised to own work, as far as the lease may.
pub(crate) fn raised<K: Keeper>(
    shared: &Shared<'_, K>,
    seat: &mut Seat<K>,
    lease: &Lease,
    own: u64,
) -> u64
    requires rest { let table = shared.now.table.shared in let v = seat.old.place.me.0 in
        IsAtRest table.table_id shared.now.case.now v.basis.seats v.numbers seat.old.place }
    requires untold { seat.old.place.me.0.basis.told ≡ None }
    requires held { IsIn lease.now seat.old.place.me.0.leases }
    ensures rest { let table = shared.now.table.shared in let v = seat.old.place.me.0 in
        IsAtRest table.table_id shared.now.case.now v.basis.seats v.numbers seat.new.place }
    ensures on { HasGoneOn seat.old.place.me.0 seat.new.place.me.0 }
{
    shared.raise(seat, lease, own)
}

// A note is met.
pub(crate) fn met<K: Keeper>(shared: &Shared<'_, K>, seat: &mut Seat<K>, note: Note<K>)
    requires rest { let table = shared.now.table.shared in let v = seat.old.place.me.0 in
        IsAtRest table.table_id shared.now.case.now v.basis.seats v.numbers seat.old.place }
    requires note { let table = shared.now.table.shared in
        IsHere table.table_id shared.now.case.now note.place }
    ensures rest { let table = shared.now.table.shared in let v = seat.old.place.me.0 in
        IsAtRest table.table_id shared.now.case.now v.basis.seats v.numbers seat.new.place }
    ensures on { HasGoneOn seat.old.place.me.0 seat.new.place.me.0 }
{
    shared.meet(seat, note);
}
