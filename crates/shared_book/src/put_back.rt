//! The marks of a shared book that is closed.
ghost use Rattle.std.specs.Prelude.{◌≡◌, IfSome, length, take};
ghost use Rattle.run_history.specs.Cases.{intervals_of};
ghost use Rattle.run_history.specs.Runs.{run_of};
ghost use Rattle.book.specs.Marks.{AreSafe};
ghost use Rattle.shared_book.specs.Turns.{HasReloaded, IsHere};

use crate::seats::Seat;
use crate::shared::Shared;
use book::Book;
use history_laws::case_is_runnable;
use row_keeper::Keeper;

// The seat loads each mark.
pub(crate) fn reload<K: Keeper>(shared: &Shared<'_, K>, seat: &mut Seat<K>)
    requires here { IsHere shared.now.table.shared.table_id shared.now.case.now seat.old.place }
    ensures here { IsHere shared.now.table.shared.table_id shared.now.case.now seat.new.place }
    ensures reloaded { HasReloaded seat.old.place.me seat.new.place.me }
{
    for interval in 0..61 {
        shared.mark(seat, interval);
    }
}

// The book takes the marks of its intervals back.
pub(crate) fn put_back<K: Keeper>(book: &mut Book<'_, K>, marks: &[u64; 61])
    requires safe { IfSome book.old.rows (λ _. AreSafe book.old.case
        (run_of book.old.case.topology book.old.history) marks.now) }
    ensures marks { book.new ≡ record book.old {
      marks = take (length (intervals_of book.old.case.topology)) marks.now;
    } }
{
    let case = book.case();
    case_is_runnable(case);
    let count = case.interval_count() as usize;
    book.put_marks(&marks[..count]);
}
