//! The least of stamps that come and go.
ghost use Rattle.std.specs.Prelude.{◌≡◌, ◌≤◌, [], ◌∷◌, Contains, OnErr, OnOk};
ghost use Rattle.std.specs.Map.{keys_of};
ghost use Rattle.std.specs.Ordering.{nat_cmp};
ghost use Rattle.std.specs.List.Sorted.{IsPermutation, IsStrictlySortedBy};
ghost use Rattle.run_history.specs.Watermarks.{least};
ghost use Rattle.watermark.specs.Counted.{AreCounts, HasOneLess, HasOneMore, stamps_in, with_lower, times_counted};

use mw_types::{END, NoMemory};
use std::alloc::Global;
use std::collections::BTreeMap;
use std::marker::Model;

// Stamps in their order, each with how often it is held.
type Counts = BTreeMap<u64, u64>;

/// Stamps, of which the least is asked. One that was added twice has to be removed twice.
#[derive(Drop)]
pub struct Oldest {
    counts: Counts,
}

impl Model for Oldest {
    ghost use Rattle.std.specs.Prelude.{ℕ, List};
    ghost use Rattle.watermark.specs.Counted.{AreCounts, stamps_in};

    ghost Value = { List ℕ };

    ghost view = { λ oldest. stamps_in oldest.counts.entries };

    ghost invariant = { λ oldest. AreCounts oldest.counts.entries };
}

impl Oldest {
    /// No stamps.
    pub fn new(alloc: Global) -> Oldest
        ensures empty { result ≡ [] }
    {
        Oldest {
            counts: BTreeMap::new(alloc),
        }
    }

    /// Holds a stamp, once more where it is held already.
    pub fn add(&mut self, stamp: u64) -> Result<(), NoMemory>
        ensures added { OnOk result (IsPermutation (stamp ∷ self.old) self.new) }
        ensures unchanged { OnErr result (self.new ≡ self.old) }
    {
        count_up(&mut self.counts, stamp)?;
        Ok(())
    }

    /// Lets go of a stamp once.
    pub fn remove(&mut self, stamp: u64)
        requires held { Contains self.old stamp }
        ensures removed { IsPermutation self.old (stamp ∷ self.new) }
    {
        count_down(&mut self.counts, stamp);
    }

    /// The least of the stamps, or the end where there is none.
    pub fn least(&self) -> u64
        ensures least { result ≡ least self.now }
    {
        least_in(&self.counts)
    }
}

// How often a stamp is held.
fn count_of(counts: &Counts, stamp: u64) -> u64
    ensures { result ≡ times_counted stamp counts.now.entries }
{
    match counts.get(&stamp) {
        Some(count) => *count,
        None => 0,
    }
}

// Counts a stamp once more. For a count past the greatest number there is no memory.
fn count_up(counts: &mut Counts, stamp: u64) -> Result<(), NoMemory>
    requires { AreCounts counts.old.entries }
    ensures added { OnOk result (HasOneMore stamp counts.old.entries counts.new.entries) }
    ensures unchanged { OnErr result (counts.new.entries ≡ counts.old.entries) }
    ensures counts { AreCounts counts.new.entries }
{
    let Some(count) = count_of(counts, stamp).checked_add(1) else {
        return Err(NoMemory);
    };
    counts.insert(stamp, count)?;
    Ok(())
}

// Counts a stamp once less, and forgets it where that was the last time.
fn count_down(counts: &mut Counts, stamp: u64)
    requires counts { AreCounts counts.old.entries }
    requires held { Contains (stamps_in counts.old.entries) stamp }
    ensures removed { HasOneLess stamp counts.old.entries counts.new.entries }
    ensures counts { AreCounts counts.new.entries }
{
    if count_of(counts, stamp) > 1 {
        lower(counts, stamp);
    } else {
        counts.remove(&stamp);
    }
}

// Lowers the count of a stamp.
fn lower(counts: &mut Counts, stamp: u64)
    requires { 1 ≤ times_counted stamp counts.old.entries }
    ensures lowered { counts.new.entries ≡ with_lower stamp counts.old.entries }
    ensures ordered { IsStrictlySortedBy nat_cmp (keys_of counts.new.entries) }
{
    if let Some(count) = counts.get_mut(&stamp) {
        *count -= 1;
    }
}

// The first stamp, or the end.
fn least_in(counts: &Counts) -> u64
    requires { AreCounts counts.now.entries }
    ensures { result ≡ least (stamps_in counts.now.entries) }
{
    match counts.first_key_value() {
        Some((stamp, _)) => stamp_at(stamp),
        None => END,
    }
}

// A stamp of an entry, which is at most the end.
fn stamp_at(stamp: &u64) -> u64
    ensures same { result ≡ stamp.now }
    ensures end { result ≤ END }
{
    *stamp
}
