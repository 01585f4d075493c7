//! Reports: each may raise the mark of one interval.
ghost use Rattle.std.specs.Prelude.{◌≡◌, ◌<◌, IfOk, IfSome, OnErr, OnOk, Some, length, max};
ghost use Rattle.run_history.specs.Cases.{intervals_of};
ghost use Rattle.run_history.specs.Runs.{run_of};
ghost use Rattle.run_history.specs.Fences.{IsCurrent};
ghost use Rattle.book.specs.Answers.{IsStaleReport};
ghost use Rattle.book.specs.Conditions.{HasSeenAllAt, IsOwnWorkAt};
ghost use Rattle.book.specs.Marks.{IsSafeAt, reported, with_mark};
ghost use Rattle.watermark.specs.Marks.{mark_of};

use crate::books::Book;
use crate::lease::Lease;
use crate::refusals::Stale;
use row_keeper::Keeper;
use watermark::inputs;

impl<'a, K: Keeper> Book<'a, K> {
    /// A worker reports the own work of an interval that it has: the oldest that is left in the
    /// interval's rows, in whole microseconds, or the end where there is none. The interval's mark
    /// rises to that, as far as the marks that feed the interval allow, and is answered.
    pub fn report(&mut self, lease: &Lease, front: u64, own: u64) -> Result<u64, Stale>
        requires lease { HasSeenAllAt self.old lease.now front }
        requires own { IsOwnWorkAt self.old lease.now front own }

        ensures answer { IfOk result (λ mark.
            mark ≡ reported self.old.case.topology lease.now.interval own self.old.marks) }
        ensures raised { IfOk result (λ mark. self.new ≡ record self.old {
          marks = with_mark lease.now.interval mark self.old.marks;
        }) }
        ensures last { OnOk result
            (IsCurrent lease.now.interval lease.now.seq self.old.history) }

        ensures stale { IsStaleReport self.old.history lease.now result }
        ensures unchanged { OnErr result (self.new ≡ self.old) }
    {
        if let Some(newer) = self.newer(lease) {
            return Err(Stale { newer });
        }
        let interval = lease.interval();
        let inputs = inputs(self.case, interval, self.marks());
        Ok(self.raise(interval, own.min(inputs)))
    }

    // Raises the mark of an interval to a safe one.
    fn raise(&mut self, interval: u32, mark: u64) -> u64
        requires there { interval < length (intervals_of self.old.case.topology) }
        requires safe { IfSome self.old.rows (λ _. IsSafeAt self.old.case
            (run_of self.old.case.topology self.old.history) interval mark) }
        ensures mark { result ≡ max (mark_of self.old.marks interval) mark }
        ensures raised { self.new ≡ record self.old {
          marks = with_mark interval result self.old.marks;
        } }
    {
        self.core.raise(interval, mark)
    }
}
