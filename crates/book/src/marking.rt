//! Marks that are put into a book, and the last claim of an interval.
ghost use Rattle.std.specs.Prelude.{◌≡◌, IfSome, length};
ghost use Rattle.run_history.specs.Cases.{intervals_of};
ghost use Rattle.run_history.specs.Fences.{last_claim};
ghost use Rattle.run_history.specs.Runs.{run_of};
ghost use Rattle.book.specs.Marks.{AreSafe};

use crate::book_core::Core;
use crate::books::Book;
use row_keeper::Keeper;

impl<'a, K: Keeper> Book<'a, K> {
    /// Sets the mark of each interval, by its number, in whole microseconds. Threads that shared the
    /// book raised its marks outside of it, and hand them back so.
    pub fn put_marks(&mut self, marks: &[u64])
        requires one_each { length marks.now ≡ length (intervals_of self.old.case.topology) }
        requires safe { IfSome self.old.rows (λ _. AreSafe self.old.case
            (run_of self.old.case.topology self.old.history) marks.now) }
        ensures marks { self.new ≡ record self.old { marks = marks.now } }
    {
        self.core.put_marks(marks);
    }

    /// The commit number of the last claim of an interval: that of the one lease under which a write
    /// is not stale.
    pub fn last_claim(&self, interval: u32) -> Option<u64>
        ensures last { result ≡ last_claim interval self.now.history }
    {
        self.core.newest(interval)
    }
}

impl<K: Keeper> Core<K> {
    // Sets all marks.
    fn put_marks(&mut self, marks: &[u64])
        requires { length marks.now ≡ length self.old.marks }
        ensures { self.new ≡ record self.old { marks = marks.now } }
    {
        self.marks.copy_from_slice(marks);
    }
}
