//! The trait of computations, Akidau et al., VLDB 2013, section 4.1.
ghost use Rattle.std.specs.Prelude.{◌≡◌, ◌≤◌, OnOk};
ghost use Rattle.mw_types.specs.Bounds.{IsWithin};
ghost use Rattle.computations.specs.Handlers.{OfRecord, OfTimer};
ghost use Rattle.computations.specs.Handlings.{begun_by, ended_with};

use crate::context::Context;
use mw_types::{MAX_STAMP, NoMemory, Record, Timer};
use std::alloc::Global;

/// What is done with the records and timers of each row, part by part.
pub trait Computation {
    ghost use Rattle.computations.specs.Laws.{AreLawful, Doings, SetNoneUnlessRecords};

    /// What the handlers of the parts do.
    ghost does: { Self → Doings };

    /// Handles a record in a context that was made for it; after an `Err` the context is given up.
    fn on_record(
        &self,
        alloc: Global,
        part: u32,
        context: &mut Context,
        item: &Record,
    ) -> Result<(), NoMemory>
        requires made { context.old
            ≡ begun_by context.old.key context.old.state (OfRecord item.now) }
        requires computation { (does self.now).has part context.old.state }
        requires within { IsWithin context.old.state }
        requires in_time { item.now.stamp ≤ MAX_STAMP }
        ensures effects { OnOk result (context.new ≡ ended_with context.old
            ((does self.now).gives part context.old.key context.old.state (OfRecord item.now))) }
        ensures within { OnOk result (IsWithin context.new.state) };

    /// Handles a timer in a context that was made for it; after an `Err` the context is given up.
    fn on_timer(
        &self,
        alloc: Global,
        part: u32,
        context: &mut Context,
        timer: &Timer,
    ) -> Result<(), NoMemory>
        requires made { context.old
            ≡ begun_by context.old.key context.old.state (OfTimer timer.now) }
        requires computation { (does self.now).has part context.old.state }
        requires within { IsWithin context.old.state }
        requires in_time { timer.now.time ≤ MAX_STAMP }
        ensures effects { OnOk result (context.new ≡ ended_with context.old
            ((does self.now).gives part context.old.key context.old.state (OfTimer timer.now))) }
        ensures within { OnOk result (IsWithin context.new.state) };

    /// Of a cause comes nothing earlier, and at most eight timers and eight productions.
    ghost lawful: { AreLawful does };

    /// What is no record sets no timer.
    ghost sets_none: { SetNoneUnlessRecords does };
}
