//! What has been read of an event file.
ghost use Rattle.std.specs.Prelude.{◌≡◌, ◌^◌, ◌<◌, ◌≤◌, [], length, IfErr, OnOk, Ok};
ghost use Rattle.mw_types.specs.declared.TheConstants.{INPUT_MAX};
ghost use Rattle.injector.specs.EventLines.{line_reading};
ghost use Rattle.injector.specs.Answers.{IsInput};
ghost use Rattle.injector.specs.Progress.{TakesIn, Refuses, record_line};

use crate::item::Item;
use crate::items::Items;
use crate::reading::{LineKind, line_reading};
use crate::refusal::{LineRefusal, LineWhy};
use mw_types::{INPUT_MAX, Key};
use std::alloc::Global;
use std::marker::Model;

// What the lines so far hold, with the greatest watermark line and the room that is left.
#[derive(Drop)]
pub(crate) struct Progress {
    items: Items,
    mark: u64,
    room: u32,
}

impl Model for Progress {
    ghost use Rattle.injector.specs.Progress.{Standing, IsStanding};

    ghost Value = { Standing };

    ghost view = { λ p. record { items = p.items; mark = p.mark; room = p.room } };

    ghost invariant = { λ p. IsStanding p.items p.mark p.room };
}

impl Progress {
    // Where nothing has been read.
    pub(crate) fn new(alloc: Global, room: u32) -> Progress
        ensures { result ≡ record { items = []; mark = 0; room = room } }
    {
        Progress {
            items: Items::new(alloc),
            mark: 0,
            room,
        }
    }

    // Appends a record line.
    fn push(&mut self, record_key: Key, stamp: u64, value: i64) -> Result<(), LineRefusal>
        requires { stamp ≤ INPUT_MAX }

        ensures ok { OnOk result (TakesIn self.old (record_line record_key stamp value) self.new) }
        ensures err { IfErr result (Refuses self.old (record_line record_key stamp value)) }
    {
        if self.room == 0 {
            return Err(LineRefusal::Breaks(LineWhy::TooManyLines));
        }
        let late = stamp < self.mark;
        let item = Item {
            record_key,
            stamp,
            value,
            late,
        };
        self.items.push(item, self.mark)?;
        self.room -= 1;
        Ok(())
    }

    // Takes in what the next line says.
    fn add(&mut self, kind: LineKind) -> Result<(), LineRefusal>
        requires { IsInput kind }

        ensures ok { OnOk result (TakesIn self.old (Ok kind) self.new) }
        ensures err { IfErr result (Refuses self.old (Ok kind)) }
    {
        match kind {
            LineKind::Blank => Ok(()),
            LineKind::Watermark { stamp } => {
                self.mark = self.mark.max(stamp);
                Ok(())
            }
            LineKind::Record {
                record_key,
                stamp,
                value,
            } => self.push(record_key, stamp, value),
        }
    }

    // Reads the next line.
    pub(crate) fn read(&mut self, alloc: Global, line: &[u8]) -> Result<(), LineRefusal>
        ensures ok { OnOk result (TakesIn self.old (line_reading line.now) self.new) }
        ensures err { IfErr result (Refuses self.old (line_reading line.now)) }
    {
        let kind = line_reading(alloc, line)?;
        self.add(kind)
    }

    // The items of the lines so far.
    pub(crate) fn into_items(self) -> Items
        ensures { result ≡ self.items }
    {
        self.items
    }
}
