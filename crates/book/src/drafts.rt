//! What a proposal changes in the row of its entry, as it lies ready to be put there.
ghost use Rattle.std.specs.Prelude.{◌≡◌, ◌<◌, ◌^◌, OnErr, OnOk, length};
ghost use Rattle.row_parts.specs.Contents.{IsRow};
ghost use Rattle.book.specs.Drafts.{AreOwn, MayDraft, drafted, undrafted};

use mw_types::{DeliveryList, NoMemory, RecordId};
use row_parts::{Own, Row};
use std::alloc::Global;
use std::mem::replace;

// What goes into a row: what takes the place of its own, the id that it handles, if there is one, and what it
// sends.
#[derive(Drop)]
pub(crate) struct Draft {
    pub(crate) own: Own,
    pub(crate) id: Option<RecordId>,
    pub(crate) sent: DeliveryList,
}

impl Draft {
    // Puts the draft into a row where it lies, under the number of the entry that does so, and keeps what takes
    // it out again.
    pub(crate) fn put_in(
        &mut self,
        alloc: Global,
        row: &mut Row,
        commit: u64,
    ) -> Result<(), NoMemory>
        requires may { MayDraft row.old self.old }
        requires commit { commit < 2 ^ 32 }
        ensures put { OnOk result (row.new ≡ drafted self.old commit row.old) }
        ensures own { OnOk result (AreOwn self.new.own) }
        ensures back { OnOk result
            (undrafted self.new (length row.old.pending) row.old.last row.new ≡ row.old) }
        ensures err { OnErr result (row.new ≡ row.old) }
    {
        let sent = replace(&mut self.sent, DeliveryList::new(alloc));
        row.grow(alloc, self.id, sent)?;
        row.exchange(&mut self.own);
        row.last = commit;
        Ok(())
    }

    // Takes the draft out of a row again, which had so many pending and this last entry before.
    pub(crate) fn take_out(&mut self, alloc: Global, row: &mut Row, count: usize, last: u64)
        requires own { AreOwn self.old.own }
        requires row { IsRow (undrafted self.old count last row.old) }
        ensures { row.new ≡ undrafted self.old count last row.old }
    {
        row.exchange(&mut self.own);
        row.last = last;
        row.shrink(alloc, self.id, count);
    }
}
