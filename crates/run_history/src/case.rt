//! What a run is of.
ghost use Rattle.std.specs.Prelude.{◌≡◌, ◌<◌, ◌≤◌, ◌^◌, [], length, slice_get, IfOk, Some};
ghost use Rattle.std.specs.Option.{option_map};
ghost use Rattle.mw_types.specs.declared.TheConstants.{MAX_STAMP};
ghost use Rattle.injector.specs.Sources.{item_at};
ghost use Rattle.topology.specs.Shapes.{injectors_of, parts_of};
ghost use Rattle.topology.specs.Rules.{interval_count};
ghost use Rattle.run_history.specs.Cases.{first_division, intervals_of, source_of, record_of};
ghost use Rattle.run_history.specs.Fences.{interval_of};

use injector::ItemsList;
use key_intervals::{Bounds, Intervals};
use mw_types::{Duplicate, Key, NoMemory, Record, RowName};
use std::alloc::Global;
use std::marker::Model;
use topology::Topology;

/// A topology, what each of its injectors injects, in their order, and the intervals of its keys.
#[derive(Drop)]
pub struct Case {
    /// The parts of the run, and the streams between them.
    pub topology: Topology,
    /// What the file of each injector holds.
    pub items: ItemsList,
    /// The intervals of keys into which the parts are cut.
    pub intervals: Intervals,
}

impl Model for Case {
    ghost use Rattle.run_history.specs.Cases.{CaseShape, IsCase};

    ghost Value = { CaseShape };

    ghost view = { λ case. record { topology = case.topology; sources = case.items } };

    ghost invariant = { λ case. IsCase case.topology case.items case.intervals };
}

impl Case {
    /// The case of a topology that has an injector for each of these.
    pub fn of(alloc: Global, topology: Topology, items: ItemsList) -> Result<Case, NoMemory>
        requires { length items ≡ injectors_of topology }
        ensures { IfOk result (λ case. case ≡ record { topology = topology; sources = items }) }
    {
        let intervals = intervals_in(alloc, &topology)?;
        Ok(Case {
            topology,
            items,
            intervals,
        })
    }

    /// The intervals of keys into which the parts are cut, as they are before any of them is split or
    /// merged.
    pub fn intervals(&self) -> &Intervals
        ensures first { result.now ≡ first_division self.now.topology }
    {
        &self.intervals
    }

    /// How many intervals the parts are cut into.
    pub fn interval_count(&self) -> u32
        ensures all { result ≡ length (intervals_of self.now.topology) }
        ensures count { result ≡ interval_count self.now.topology }
        ensures few { result ≤ 61 }
    {
        self.intervals.count()
    }

    /// The keys of the interval that has a number.
    pub fn bounds(&self, interval: u32) -> &Bounds
        requires there { interval < length (intervals_of self.now.topology) }
        ensures at { slice_get (intervals_of self.now.topology) interval ≡ Some result.now }
    {
        self.intervals.bounds(interval)
    }

    /// The number of the interval in which a row lies, of a part that is there.
    pub fn interval_of(&self, name: &RowName) -> u32
        requires part { name.now.part < parts_of self.now.topology }
        ensures interval { interval_of self.now.topology name.now ≡ Some result }
    {
        // Every topology keeps the rules that intervals need.
        let _parts = self.topology.parts();
        self.intervals.find(name)
    }

    /// The name of an injector's row, which has no key.
    pub fn injector_row(alloc: Global, part: u32) -> RowName
        ensures name { result ≡ record { part = part; key = [] } }
    {
        RowName {
            part,
            key: Key::none(alloc),
        }
    }

    /// How many lines the file of an injector has.
    pub fn lines(&self, part: u32) -> u32
        requires injector { part < injectors_of self.now.topology }
        ensures lines { result ≡ length (source_of self.now part) }
    {
        self.items.as_slice()[part as usize].count()
    }

    /// The record that an injector injects of a line that its file has.
    pub fn line_record(&self, alloc: Global, part: u32, line: u32) -> Result<Record, NoMemory>
        requires injector { part < injectors_of self.now.topology }
        requires there { line < length (source_of self.now part) }
        ensures item { IfOk result
            (λ item. option_map record_of (item_at (source_of self.now part) line) ≡ Some item) }
        ensures stamp { IfOk result (λ item. item.stamp ≤ MAX_STAMP) }
        ensures few { length (source_of self.now part) < 2 ^ 32 }
    {
        let items = &self.items.as_slice()[part as usize];
        let _lines = items.count();
        let item = items.at(line);
        Ok(Record {
            key: item.record_key.copy(alloc)?,
            stamp: item.stamp,
            value: item.value,
            late: item.late,
        })
    }
}

// The intervals of a topology's cuts.
fn intervals_in(alloc: Global, topology: &Topology) -> Result<Intervals, NoMemory>
    ensures { IfOk result (λ all. all ≡ first_division topology.now) }
{
    // Every topology keeps the rules that intervals need.
    let _parts = topology.parts();
    let cuts = topology.part_cuts(alloc)?;
    let intervals = Intervals::of(alloc, cuts.as_slice(), topology.injectors())?;
    Ok(intervals)
}
