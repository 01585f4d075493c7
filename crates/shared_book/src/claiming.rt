//! A claim, and a count of what is left, in a turn.
ghost use Rattle.std.specs.Prelude.{◌≡◌, ◌≢◌, ◌↔◌, IfErr, IfOk, IfSome, IsErrOf, length};
ghost use Rattle.run_history.specs.Finished.{unfinished};
ghost use Rattle.run_history.specs.Legal.{MayClaim};
ghost use Rattle.run_history.specs.Runs.{run_of};
ghost use Rattle.book.specs.Claims.{IsDamaged};
ghost use Rattle.book.specs.declared.refusals.ClaimRefusal.TheVariants as claims;
ghost use Rattle.shared_book.specs.Turns.{HasClaimedIn, HasFaulted, HasTurn, IsHere};

use crate::in_turn::back;
use crate::shared::Shared;
use crate::slots::{append, home, out};
use crate::views::View;
use atomic_table::Seat as Place;
use book::{Book, ClaimRefusal, Claimed, Core};
use row_keeper::Keeper;
use std::alloc::Global;

// A claim in a turn.
pub(crate) fn claim_in<K: Keeper>(
    alloc: Global,
    shared: &Shared<'_, K>,
    place: &mut Place<Option<Core<K>>, View>,
    worker: u32,
    interval: u32,
) -> Result<Claimed, ClaimRefusal>
    requires here { IsHere shared.now.table.shared.table_id shared.now.case.now place.old }
    requires turn { HasTurn place.old.me }
    requires may { MayClaim shared.now.case.now worker interval }

    ensures here { IsHere shared.now.table.shared.table_id shared.now.case.now place.new }
    ensures turn { HasTurn place.new.me }
    ensures numbers { place.new.me.0.numbers ≡ place.old.me.0.numbers }
    ensures basis { place.new.me.0.basis ≡ place.old.me.0.basis }
    ensures claimed { IfOk result
        (HasClaimedIn place.old.me.0 place.new.me.0 worker interval) }
    ensures full { IsErrOf result ClaimRefusal.HistoryFull ↔
        (length place.old.me.0.front ≡ place.old.me.0.basis.limit) }
    ensures damaged { let v = place.old.me.0 in
        IfErr result (IsDamaged v.basis.case v.basis.told (length v.front)) }
    ensures fault { IsErrOf result ClaimRefusal.KeeperFault →
        HasFaulted place.old.me.0 place.new.me.0 }
    ensures unchanged { IfErr result (λ why. (why ≢ claims.KeeperFault) →
        place.new.me.0 ≡ place.old.me.0) }
{
    let core = out(shared, place);
    let mut book = Book::of(shared.case, core);
    let result = book.claim(alloc, worker, interval);
    let (_case, core) = book.into_core();
    match result {
        Ok(claimed) => {
            append(shared, place, core);
            Ok(claimed)
        }
        Err(ClaimRefusal::KeeperFault) => {
            back(shared, place, core, true);
            Err(ClaimRefusal::KeeperFault)
        }
        Err(why) => {
            back(shared, place, core, false);
            Err(why)
        }
    }
}

// A count of what is left, in a turn.
pub(crate) fn unfinished_in<K: Keeper>(
    shared: &Shared<'_, K>,
    place: &mut Place<Option<Core<K>>, View>,
) -> u64
    requires here { IsHere shared.now.table.shared.table_id shared.now.case.now place.old }
    requires turn { HasTurn place.old.me }

    ensures here { IsHere shared.now.table.shared.table_id shared.now.case.now place.new }
    ensures turn { HasTurn place.new.me }
    ensures view { place.new.me.0 ≡ place.old.me.0 }
    ensures left { let v = place.old.me.0 in IfSome v.basis.told
        (λ _. result ≡ unfinished v.basis.case (run_of v.basis.case.topology v.front)) }
{
    let core = out(shared, place);
    let book = Book::of(shared.case, core);
    let left = book.unfinished();
    let (_case, core) = book.into_core();
    home(shared, place, core);
    left
}
