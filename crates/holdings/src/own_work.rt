//! The own work of an interval that is held.
ghost use Rattle.std.specs.Prelude.{◌≡◌, ◌++◌, ◌<◌, IfOk, IfSome, IsSome, Some, length, slice_get};
ghost use Rattle.std.specs.List.{flat_map};
ghost use Rattle.mw_types.specs.declared.identity.RowName.{RowName};
ghost use Rattle.key_intervals.specs.declared.bounds.Bounds.{Bounds};
ghost use Rattle.row_parts.specs.Contents.{Contents};
ghost use Rattle.run_history.specs.Cases.{intervals_of};
ghost use Rattle.run_history.specs.Marks.{own_work, row_marks, stated_marks};
ghost use Rattle.run_history.specs.Runs.{cached};
ghost use Rattle.run_history.specs.Watermarks.{least, source_mark};
ghost use Rattle.book.specs.Conditions.{IsOwnWork};
ghost use Rattle.holdings.specs.Holding.{AreAllHeld, HeldView, held_at};
ghost use Rattle.holdings.specs.Steps.{IsOldest};

use crate::held::Held;
use crate::holdings::Holdings;
use book::Desk;
use mw_types::{END, NoMemory};
use run_history::Case;
use std::alloc::Global;

impl Held {
    // The watermark that an injector's file states before its next line.
    fn stated(&self, alloc: Global, case: &Case, part: u32) -> u64
        ensures { result ≡ source_mark case.now (cached self.now.rows) part }
    {
        let name = Case::injector_row(alloc, part);
        let line = self.cursor(&name);
        match case.items.get(part as usize) {
            Some(items) => items.stated(line),
            None => END,
        }
    }

    // The oldest work of all rows, and of an injector the watermark that its file states.
    fn own_work(&mut self, alloc: Global, case: &Case, part: u32) -> Result<u64, NoMemory>
        ensures own { IfOk result (IsOldest case.now part self.old) }
        ensures same { self.new ≡ self.old }
    {
        let oldest = self.rows.oldest(alloc)?;
        Ok(self.own_beside(alloc, case, part, oldest))
    }

    // The lesser of the oldest work of all rows and, of an injector, of the watermark that its file
    // states.
    fn own_beside(&self, alloc: Global, case: &Case, part: u32, oldest: u64) -> u64
        requires oldest { oldest
            ≡ least (flat_map (λ (r : RowName × Contents). row_marks r.1) self.now.rows) }
        ensures { result ≡ least (flat_map (λ (r : RowName × Contents). row_marks r.1) self.now.rows
            ++ stated_marks case.now (cached self.now.rows) part) }
    {
        if part < case.topology.injectors() {
            oldest.min(self.stated(alloc, case, part))
        } else {
            oldest
        }
    }
}

impl Holdings {
    /// The own work of an interval that is held, in whole microseconds: the oldest that is left in
    /// its rows, or the end where there is none. It is what the interval's worker reports.
    pub fn own_work<D: Desk>(
        &mut self,
        alloc: Global,
        desk: &D,
        case: &Case,
        interval: u32,
    ) -> Result<u64, NoMemory>
        requires case { (D.view desk.now).case ≡ case.now }
        requires fits { AreAllHeld case.now (D.view desk.now) self.old }
        requires there { IsSome (held_at self.old interval) }
        requires interval { interval < length (intervals_of case.now.topology) }

        ensures exact { IfOk result (λ own. (held : HeldView) (bounds : Bounds) →
            held_at self.old interval ≡ Some held →
            slice_get (intervals_of case.now.topology) interval ≡ Some bounds →
            own ≡ own_work case.now (cached held.rows) bounds) }
        ensures own { IfOk result (λ own. IfSome (held_at self.old interval) (λ held.
            IsOwnWork case.now (D.view desk.now).told (D.view desk.now).seen held.lease own)) }
        ensures same { self.new ≡ self.old }
    {
        desk.sound();
        let part = case.bounds(interval).part;
        self.oldest(alloc, case, interval, part)
    }

    // The oldest work of an interval that is held.
    fn oldest(
        &mut self,
        alloc: Global,
        case: &Case,
        interval: u32,
        part: u32,
    ) -> Result<u64, NoMemory>
        ensures own { IfOk result (λ own.
            IfSome (held_at self.old interval) (λ held. IsOldest case.now part held own)) }
        ensures same { self.new ≡ self.old }
    {
        match self.all.get_mut(interval as usize) {
            Some(place) => oldest_in(place, alloc, case, part),
            None => Ok(END),
        }
    }
}

// The oldest work of what is held in a place.
fn oldest_in(
    place: &mut Option<Held>,
    alloc: Global,
    case: &Case,
    part: u32,
) -> Result<u64, NoMemory>
    ensures own { IfOk result (λ own. IfSome place.old (λ held. IsOldest case.now part held own)) }
    ensures same { place.new ≡ place.old }
{
    match place {
        Some(held) => held.own_work(alloc, case, part),
        None => Ok(END),
    }
}
