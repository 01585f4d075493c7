//! The calls of a turn, on a caller's seat.
ghost use Rattle.std.specs.Prelude.{◌≡◌, ◌≢◌, ◌↔◌, IfErr, IfOk, IfSome, IsErrOf, length};
ghost use Rattle.run_history.specs.Finished.{unfinished};
ghost use Rattle.run_history.specs.Legal.{MayClaim};
ghost use Rattle.run_history.specs.Runs.{run_of};
ghost use Rattle.book.specs.Answers.{IsFullWhere, IsStaleWhere};
ghost use Rattle.book.specs.Claims.{IsDamaged};
ghost use Rattle.book.specs.declared.refusals.ClaimRefusal.TheVariants as claims;
ghost use Rattle.book.specs.declared.refusals.WriteRefusal.TheVariants as refusals;
ghost use Rattle.shared_book.specs.Turns.{HasClaimedIn, HasFaulted, HasPutIn, HasTurn, IsHere, IsRowHeld, MayPutIn, MayWrite};

use crate::claiming::{claim_in, unfinished_in};
use crate::in_turn::back;
use crate::seats::Seat;
use crate::shared::Shared;
use crate::slots::{append, out};
use book::{Book, ClaimRefusal, Claimed, Lease, WriteRefusal, Writing, Written};
use history_laws::case_is_runnable;
use mw_types::RowName;
use row_keeper::Keeper;
use row_parts::Row;
use std::alloc::Global;

// A claim in a turn.
pub(crate) fn claim_at<K: Keeper>(
    alloc: Global,
    shared: &Shared<'_, K>,
    seat: &mut Seat<K>,
    worker: u32,
    interval: u32,
) -> Result<Claimed, ClaimRefusal>
    requires here { IsHere shared.now.table.shared.table_id shared.now.case.now seat.old.place }
    requires turn { HasTurn seat.old.place.me }
    requires may { MayClaim shared.now.case.now worker interval }

    ensures here { IsHere shared.now.table.shared.table_id shared.now.case.now seat.new.place }
    ensures turn { HasTurn seat.new.place.me }
    ensures numbers { seat.new.place.me.0.numbers ≡ seat.old.place.me.0.numbers }
    ensures basis { seat.new.place.me.0.basis ≡ seat.old.place.me.0.basis }
    ensures claimed { IfOk result
        (HasClaimedIn seat.old.place.me.0 seat.new.place.me.0 worker interval) }
    ensures full { IsErrOf result ClaimRefusal.HistoryFull ↔
        (length seat.old.place.me.0.front ≡ seat.old.place.me.0.basis.limit) }
    ensures damaged { let v = seat.old.place.me.0 in
        IfErr result (IsDamaged v.basis.case v.basis.told (length v.front)) }
    ensures fault { IsErrOf result ClaimRefusal.KeeperFault →
        HasFaulted seat.old.place.me.0 seat.new.place.me.0 }
    ensures unchanged { IfErr result (λ why. (why ≢ claims.KeeperFault) →
        seat.new.place.me.0 ≡ seat.old.place.me.0) }
{
    case_is_runnable(shared.case);
    match claim_in(alloc, shared, &mut seat.place, worker, interval) {
        Ok(claimed) => {
            seat.claims[interval as usize] = claimed.lease.seq() + 1;
            seat.inputs[interval as usize] = 0;
            seat.settled = false;
            Ok(claimed)
        }
        Err(why) => Err(why),
    }
}

// A write in a turn, on a copy of the row.
pub(crate) fn put_at<K: Keeper>(
    alloc: Global,
    shared: &Shared<'_, K>,
    seat: &mut Seat<K>,
    lease: &Lease,
    name: &RowName,
    row: &Row,
    writing: Writing<'_>,
) -> Result<Written, WriteRefusal>
    requires here { IsHere shared.now.table.shared.table_id shared.now.case.now seat.old.place }
    requires turn { HasTurn seat.old.place.me }
    requires lease { MayWrite seat.old.place.me.0 lease.now name.now }
    requires row { IsRowHeld seat.old.place.me.0 lease.now name.now row.now }
    requires may { MayPutIn seat.old.place.me.0 name.now row.now writing }

    ensures here { IsHere shared.now.table.shared.table_id shared.now.case.now seat.new.place }
    ensures turn { HasTurn seat.new.place.me }
    ensures numbers { seat.new.place.me.0.numbers ≡ seat.old.place.me.0.numbers }
    ensures basis { seat.new.place.me.0.basis ≡ seat.old.place.me.0.basis }
    ensures put { IfOk result (HasPutIn seat.old.place.me.0 seat.new.place.me.0
        lease.now name.now writing.entry row.now) }
    ensures stale { IsStaleWhere seat.old.place.me.0.front lease.now result }
    ensures full { IsFullWhere seat.old.place.me.0.basis.limit seat.old.place.me.0.front
        lease.now result }
    ensures fault { IsErrOf result WriteRefusal.KeeperFault →
        HasFaulted seat.old.place.me.0 seat.new.place.me.0 }
    ensures unchanged { IfErr result (λ why. (why ≢ refusals.KeeperFault) →
        seat.new.place.me.0 ≡ seat.old.place.me.0) }
{
    let core = out(shared, &mut seat.place);
    let mut book = Book::of(shared.case, core);
    let front = book.history().len() as u64;
    let result = book.put_copy(alloc, lease, front, name, row, writing);
    let (_case, core) = book.into_core();
    match result {
        Ok(written) => {
            append(shared, &mut seat.place, core);
            Ok(written)
        }
        Err(why) => {
            back(
                shared,
                &mut seat.place,
                core,
                why == WriteRefusal::KeeperFault,
            );
            Err(why)
        }
    }
}

// A count of what is left, in a turn.
pub(crate) fn unfinished_at<K: Keeper>(shared: &Shared<'_, K>, seat: &mut Seat<K>) -> u64
    requires here { IsHere shared.now.table.shared.table_id shared.now.case.now seat.old.place }
    requires turn { HasTurn seat.old.place.me }

    ensures here { IsHere shared.now.table.shared.table_id shared.now.case.now seat.new.place }
    ensures turn { HasTurn seat.new.place.me }
    ensures view { seat.new.place.me.0 ≡ seat.old.place.me.0 }
    ensures left { let v = seat.old.place.me.0 in IfSome v.basis.told
        (λ _. result ≡ unfinished v.basis.case (run_of v.basis.case.topology v.front)) }
{
    unfinished_in(shared, &mut seat.place)
}
