//! What is kept beside the rows of an interval, so that the own work and the first timer of all of
//! them are found without going over them.
ghost use Rattle.std.specs.Prelude.{◌≡◌, ◌≢◌, [], Contains, IfOk, IfSome, IsSome, None, OnOk, Some, option_copied};
ghost use Rattle.std.specs.Option.{option_and_then, option_map};
ghost use Rattle.std.specs.List.Sorted.{IsStrictlySortedBy};
ghost use Rattle.std.specs.Map.{keys_of};
ghost use Rattle.std.specs.BTreeMap.{insert_entry};
ghost use Rattle.mw_types.specs.Orders.{row_cmp};
ghost use Rattle.row_parts.specs.Contents.{Contents};
ghost use Rattle.run_history.specs.Runs.{cached, row_in};
ghost use Rattle.holdings.specs.Dues.{due_at, due_of, due_order};
ghost use Rattle.holdings.specs.Keyed.{HasRekeyed, IsThere};
ghost use Rattle.holdings.specs.Timers.{timer_of};
ghost use Rattle.holdings.specs.Indexes.{HasRestamped, HasUnstamped, IsIndexOf, work_of};
ghost use Rattle.holdings.specs.Seens.{had_seen, name_if, seen_of};
ghost use Rattle.holdings.specs.Writing.{IsBefore, WasNoted};

use crate::cache::Cache;
use crate::due::{Dues, add_due, set_due};
use crate::row_work::row_work;
use crate::seen::{Names, add_seen, has_seen, set_seen};
use mw_types::{END, NoMemory, RowName, Timer};
use row_parts::Row;
use std::alloc::Global;
use std::collections::BTreeMap;
use watermark::Oldest;

// What is kept beside rows: the oldest work of each that has any, of which the least is asked, the
// first timer of each, of which the first is asked, and the names of those that have seen ids.
#[derive(Drop)]
pub(crate) struct Index {
    pub(crate) work: Oldest,
    pub(crate) dues: Dues,
    pub(crate) seen: Names,
}

// What an index has of a row: its oldest work, its first timer, and whether it has seen ids.
#[derive(Clone, Copy, Drop)]
pub(crate) struct Before {
    pub(crate) work: u64,
    pub(crate) timer: Option<Timer>,
    pub(crate) seen: bool,
}

impl Index {
    // That of no rows.
    pub(crate) fn new(alloc: Global) -> Index
        ensures work { result.work ≡ [] }
        ensures dues { result.dues.entries ≡ [] }
        ensures ordered { IsStrictlySortedBy due_order (keys_of result.dues.entries) }
        ensures seen { result.seen.entries ≡ [] }
        ensures ascending { IsStrictlySortedBy row_cmp (keys_of result.seen.entries) }
    {
        Index {
            work: Oldest::new(alloc),
            dues: BTreeMap::new(alloc),
            seen: BTreeMap::new(alloc),
        }
    }

    // Keeps what there is of one more row.
    pub(crate) fn add(&mut self, alloc: Global, name: &RowName, row: &Row) -> Result<(), NoMemory>
        requires ordered { IsStrictlySortedBy due_order (keys_of self.old.dues.entries) }
        requires ascending { IsStrictlySortedBy row_cmp (keys_of self.old.seen.entries) }
        ensures work { OnOk result
            (HasRestamped None (work_of row.now) self.old.work self.new.work) }
        ensures dues { OnOk result (HasRekeyed due_order None (due_of name.now row.now)
            self.old.dues.entries self.new.dues.entries) }
        ensures seen { OnOk result (HasRekeyed row_cmp None (seen_of name.now row.now)
            self.old.seen.entries self.new.seen.entries) }
    {
        restamp(&mut self.work, None, row_work(row))?;
        add_due(alloc, &mut self.dues, name, row.least_timer())?;
        add_seen(alloc, &mut self.seen, name, row)
    }

    // Keeps what there is of a row in the place of what there was of it.
    fn rekey(
        &mut self,
        alloc: Global,
        name: &RowName,
        before: Before,
        row: &Row,
    ) -> Result<(), NoMemory>
        requires held { END ≢ before.work → Contains self.old.work before.work }
        requires ordered { IsStrictlySortedBy due_order (keys_of self.old.dues.entries) }
        requires ascending { IsStrictlySortedBy row_cmp (keys_of self.old.seen.entries) }
        requires due { IsThere due_order
            (option_map (due_at name.now) before.timer) self.old.dues.entries }
        requires named { IsThere row_cmp (name_if before.seen name.now) self.old.seen.entries }
        ensures work { OnOk result
            (HasRestamped (Some before.work) (work_of row.now) self.old.work self.new.work) }
        ensures dues { OnOk result (HasRekeyed due_order
            (option_map (due_at name.now) before.timer) (due_of name.now row.now)
            self.old.dues.entries self.new.dues.entries) }
        ensures seen { OnOk result (HasRekeyed row_cmp
            (name_if before.seen name.now) (seen_of name.now row.now)
            self.old.seen.entries self.new.seen.entries) }
    {
        restamp(&mut self.work, Some(before.work), row_work(row))?;
        set_due(alloc, &mut self.dues, name, before.timer, row.least_timer())?;
        set_seen(alloc, &mut self.seen, name, before.seen, has_seen(row))
    }

    // Keeps what there is of a row in the place of what there was of it before, if it was there.
    fn put(
        &mut self,
        alloc: Global,
        before: Option<&Row>,
        name: &RowName,
        row: &Row,
    ) -> Result<(), NoMemory>
        requires held { IfSome (option_copied before)
            (λ b. END ≢ work_of b → Contains self.old.work (work_of b)) }
        requires ordered { IsStrictlySortedBy due_order (keys_of self.old.dues.entries) }
        requires ascending { IsStrictlySortedBy row_cmp (keys_of self.old.seen.entries) }
        requires due { IsThere due_order
            (option_and_then (due_of name.now) (option_copied before)) self.old.dues.entries }
        requires named { IsThere row_cmp
            (option_and_then (seen_of name.now) (option_copied before)) self.old.seen.entries }
        ensures work { OnOk result (HasRestamped
            (option_map work_of (option_copied before.entry)) (work_of row.now)
            self.old.work self.new.work) }
        ensures dues { OnOk result (HasRekeyed due_order
            (option_and_then (due_of name.now) (option_copied before.entry))
            (due_of name.now row.now) self.old.dues.entries self.new.dues.entries) }
        ensures seen { OnOk result (HasRekeyed row_cmp
            (option_and_then (seen_of name.now) (option_copied before.entry))
            (seen_of name.now row.now) self.old.seen.entries self.new.seen.entries) }
    {
        let old = work_before(before);
        restamp(&mut self.work, old, row_work(row))?;
        let old = timer_before(before);
        set_due(alloc, &mut self.dues, name, old, row.least_timer())?;
        let old = seen_before(before);
        set_seen(alloc, &mut self.seen, name, old, has_seen(row))
    }
}

// What an index has of a row.
pub(crate) fn before_of(row: &Row) -> Before
    ensures { IsBefore row.now result }
{
    Before {
        work: row_work(row),
        timer: row.least_timer(),
        seen: has_seen(row),
    }
}

// The index once a row was changed, or none where there was no memory for it.
pub(crate) fn rekeyed(
    alloc: Global,
    index: Option<Box<Index>>,
    rows: &Cache,
    name: &RowName,
    before: Before,
) -> Option<Box<Index>>
    requires there { IsSome (row_in (cached rows.now) name.now) }
    requires noted { WasNoted name.now rows.now before index }
    ensures { IfSome result (λ index. IsIndexOf rows.now index.value) }
{
    match index {
        Some(index) => {
            let mut index = index;
            match index.rekey(alloc, name, before, rows.get(name).unwrap()) {
                Ok(()) => Some(index),
                Err(NoMemory) => None,
            }
        }
        None => None,
    }
}

// The index once a row is put among the rows, or none where there was no memory for it.
pub(crate) fn changed(
    alloc: Global,
    index: Option<Box<Index>>,
    rows: &Cache,
    name: &RowName,
    row: &Row,
) -> Option<Box<Index>>
    requires ordered { IsStrictlySortedBy row_cmp (keys_of rows.now) }
    requires index { IfSome index (λ index. IsIndexOf rows.now index.value) }
    ensures { IfSome result (λ index.
        IsIndexOf (insert_entry row_cmp rows.now name.now row.now) index.value) }
{
    match index {
        Some(index) => {
            let mut index = index;
            match index.put(alloc, rows.get(name), name, row) {
                Ok(()) => Some(index),
                Err(NoMemory) => None,
            }
        }
        None => None,
    }
}

// The oldest work of a row, if there is one.
fn work_before(before: Option<&Row>) -> Option<u64>
    ensures { result ≡ option_map work_of (option_copied before.entry) }
{
    match before {
        Some(row) => Some(row_work(row)),
        None => None,
    }
}

// The first timer of a row, if there is one.
fn timer_before(before: Option<&Row>) -> Option<Timer>
    ensures { result ≡ option_and_then timer_of (option_copied before.entry) }
{
    match before {
        Some(row) => row.least_timer(),
        None => None,
    }
}

// Whether a row had seen ids, if there is one.
fn seen_before(before: Option<&Row>) -> bool
    ensures { result ≡ had_seen (option_copied before.entry) }
{
    match before {
        Some(row) => has_seen(row),
        None => false,
    }
}

// One stamp more, and one less where there was one.
fn restamp(stamps: &mut Oldest, before: Option<u64>, after: u64) -> Result<(), NoMemory>
    requires held { IfSome before (λ b. END ≢ b → Contains stamps.old b) }
    ensures changed { OnOk result (HasRestamped before after stamps.old stamps.new) }
{
    match before {
        Some(before) => change(stamps, before, after),
        None => add_stamp(stamps, after),
    }
}

// One stamp in the place of another.
fn change(stamps: &mut Oldest, before: u64, after: u64) -> Result<(), NoMemory>
    requires held { END ≢ before → Contains stamps.old before }
    ensures changed { OnOk result (HasRestamped (Some before) after stamps.old stamps.new) }
{
    if before == after {
        return Ok(());
    }
    remove_stamp(stamps, before);
    add_stamp(stamps, after)
}

// One stamp more. The end is none: a row without work costs nothing here.
fn add_stamp(stamps: &mut Oldest, stamp: u64) -> Result<(), NoMemory>
    ensures added { OnOk result (HasRestamped None stamp stamps.old stamps.new) }
{
    if stamp == END {
        return Ok(());
    }
    stamps.add(stamp)
}

// One stamp less.
fn remove_stamp(stamps: &mut Oldest, stamp: u64)
    requires held { END ≢ stamp → Contains stamps.old stamp }
    ensures { HasUnstamped stamp stamps.old stamps.new }
{
    if stamp == END {
        return;
    }
    stamps.remove(stamp);
}
