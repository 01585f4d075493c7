//! The calls of a book, in a turn: the book is taken out of its place, called, and put back.
ghost use Rattle.std.specs.Prelude.{◌≡◌, ◌≢◌, IfErr, IfOk, IsErrOf, OnErr, true, false};
ghost use Rattle.mw_types.specs.Causes.{Rose};
ghost use Rattle.run_history.specs.Legal.{floor_of};
ghost use Rattle.run_history.specs.Runs.{run_of};
ghost use Rattle.book.specs.Answers.{IsFullWhere, IsStaleWhere, answer_of};
ghost use Rattle.book.specs.declared.refusals.WriteRefusal.TheVariants as refusals;
ghost use Rattle.shared_book.specs.FenceLaw.{AreClaimed, IsCore};
ghost use Rattle.shared_book.specs.Turns.{HasFaulted, HasPutIn, HasTurn, IsHere, IsOut, IsRowHeld, MayPutIn, MayWrite};

use crate::shared::Shared;
use crate::slots::{append, fault, home, out};
use crate::views::View;
use atomic_table::Seat as Place;
use book::{Book, Core, Lease, WriteRefusal, Writing};
use mw_types::RowName;
use row_keeper::Keeper;
use row_parts::Row;
use std::alloc::Global;

// A write in a turn, on a row that is changed where it lies. It answers the floor of the history too.
pub(crate) fn put_in<K: Keeper>(
    alloc: Global,
    shared: &Shared<'_, K>,
    place: &mut Place<Option<Core<K>>, View>,
    lease: &Lease,
    name: &RowName,
    row: &mut Row,
    writing: Writing<'_>,
) -> (Result<u64, WriteRefusal>, u64)
    requires here { IsHere shared.now.table.shared.table_id shared.now.case.now place.old }
    requires turn { HasTurn place.old.me }
    requires lease { MayWrite place.old.me.0 lease.now name.now }
    requires row { IsRowHeld place.old.me.0 lease.now name.now row.old }
    requires may { MayPutIn place.old.me.0 name.now row.old writing }

    ensures here { IsHere shared.now.table.shared.table_id shared.now.case.now place.new }
    ensures turn { HasTurn place.new.me }
    ensures numbers { place.new.me.0.numbers ≡ place.old.me.0.numbers }
    ensures basis { place.new.me.0.basis ≡ place.old.me.0.basis }
    ensures put { IfOk result.0 (λ commit. HasPutIn place.old.me.0 place.new.me.0
        lease.now name.now writing.entry row.old (answer_of commit row.new)) }
    ensures row { OnErr result.0 (row.new ≡ row.old) }
    ensures stale { IsStaleWhere place.old.me.0.front lease.now result.0 }
    ensures full { IsFullWhere place.old.me.0.basis.limit place.old.me.0.front lease.now result.0 }
    ensures fault { IsErrOf result.0 WriteRefusal.KeeperFault →
        HasFaulted place.old.me.0 place.new.me.0 }
    ensures unchanged { IfErr result.0 (λ why. (why ≢ refusals.KeeperFault) →
        place.new.me.0 ≡ place.old.me.0) }
    ensures floor_after { let v = place.new.me.0 in
        result.1 ≡ floor_of (run_of v.basis.case.topology v.front) }
{
    let core = out(shared, place);
    let mut book = Book::of(shared.case, core);
    let front = book.history().len() as u64;
    let result = book.put(alloc, lease, front, name, row, writing);
    let floor_after = book.floor();
    let (_case, core) = book.into_core();
    match result {
        Ok(commit) => {
            append(shared, place, core);
            (Ok(commit), floor_after)
        }
        Err(why) => {
            back(shared, place, core, why == WriteRefusal::KeeperFault);
            (Err(why), floor_after)
        }
    }
}

// The call was refused: the book goes back as it was, and it is noted where its keeper failed.
pub(crate) fn back<K: Keeper>(
    shared: &Shared<'_, K>,
    place: &mut Place<Option<Core<K>>, View>,
    core: Core<K>,
    failed: bool,
)
    requires table { place.old.table_id ≡ shared.now.table.shared.table_id }
    requires live { place.old.me.0.live ≡ true }
    requires out { IsOut place.old.me }
    requires core { let v = place.old.me.0 in IsCore v.basis v.front v.count core }
    requires claimed { AreClaimed place.old.me.0.front place.old.me.0.leases }
    requires rose { failed ≡ true → Rose place.old.me.0.count core.faults }
    ensures table { place.new.table_id ≡ shared.now.table.shared.table_id }
    ensures turn { HasTurn place.new.me }
    ensures same { failed ≡ false → place.new.me.0 ≡ place.old.me.0 }
    ensures fault { failed ≡ true → HasFaulted place.old.me.0 place.new.me.0 }
    ensures basis { place.new.me.0.basis ≡ place.old.me.0.basis }
    ensures live { place.new.me.0.live ≡ true }
    ensures numbers { place.new.me.0.numbers ≡ place.old.me.0.numbers }
    ensures front { place.new.me.0.front ≡ place.old.me.0.front }
{
    if failed {
        fault(shared, place, core);
    } else {
        home(shared, place, core);
    }
}
