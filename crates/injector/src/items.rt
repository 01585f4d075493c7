//! The record lines of one injector's file, in order.
ghost use Rattle.std.specs.Prelude.{◌≡◌, ◌++◌, ◌∷◌, ◌+◌, ◌^◌, ◌<◌, ◌≤◌, [], All, length, nat_lt, OnErr, OnOk, Some};
ghost use Rattle.mw_types.specs.declared.TheConstants.{INPUT_MAX};
ghost use Rattle.injector.specs.Sources.{SourceLine, IsSource, item_at, stated_at};
ghost use Rattle.injector.specs.EventFiles.{source_line};

use crate::item::Item;
use mw_types::{END, INPUT_MAX, NoMemory, Seq};
use std::alloc::Global;
use std::marker::Model;

// One record line, and the watermark that the file states before it.
#[derive(Drop)]
struct Line {
    item: Item,
    stated: u64,
}

impl Model for Line {
    ghost use Rattle.injector.specs.Sources.{SourceLine};

    ghost Value = { SourceLine };

    ghost view = { λ line. record { item = line.item; stated = line.stated } };
}

/// What one event file holds, which contracts see as its source.
#[derive(Drop)]
pub struct Items {
    lines: Vec<Line>,
}

impl Model for Items {
    ghost use Rattle.std.specs.Prelude.{◌<◌, ◌^◌, length};
    ghost use Rattle.injector.specs.Sources.{Source, IsSource};

    ghost Value = { Source };

    ghost view = { λ items. items.lines.items };

    ghost invariant = { λ items. IsSource items.lines.items × length items.lines.items < 2 ^ 32 };
}

/// What the injectors of a topology inject, by number.
pub type ItemsList = Seq<Items>;

impl Items {
    /// What an empty file holds, for a reader to fill line by line.
    pub fn new(alloc: Global) -> Items
        ensures empty { result ≡ [] }
    {
        Items {
            lines: Vec::new(alloc),
        }
    }

    /// Appends the next record line, under the greatest watermark line before it.
    pub fn push(&mut self, item: Item, stated: u64) -> Result<(), NoMemory>
        requires room { length self.old + 1 < 2 ^ 32 }
        requires stamp { item.stamp ≤ INPUT_MAX }
        requires mark { stated ≤ INPUT_MAX }
        requires rising { All (λ line. line.stated ≤ stated) self.old }
        requires lateness { item.late ≡ nat_lt item.stamp stated }

        ensures appended { OnOk result (self.new ≡ self.old ++ source_line item stated ∷ []) }
        ensures unchanged { OnErr result (self.new ≡ self.old) }
    {
        self.lines.push(Line { item, stated })?;
        Ok(())
    }

    /// How many record lines there are.
    pub fn count(&self) -> u32
        ensures count { result ≡ length self.now }
        ensures lawful { IsSource self.now }
    {
        self.lines.len() as u32
    }

    /// The record of a line, counted from 0.
    pub fn at(&self, cursor: u32) -> &Item
        requires there { cursor < length self.now }

        ensures item { item_at self.now cursor ≡ Some result.now }
        ensures bounded { result.now.stamp ≤ INPUT_MAX }
    {
        let line = &self.lines[cursor as usize];
        &line.item
    }

    /// The watermark that the file states before a line, and `END` after the last.
    pub fn stated(&self, cursor: u32) -> u64
        ensures mark { result ≡ stated_at self.now cursor }
    {
        match self.lines.get(cursor as usize) {
            Some(line) => line.stated,
            None => END,
        }
    }
}
