//! The numbers of one part's live intervals, in the order of their first keys.
ghost use Rattle.std.specs.Prelude.{◌≡◌, ◌<◌, ◌++◌, All, IfOk, OnOk, length, flat_map, slice_set};
ghost use Rattle.key_intervals.specs.declared.TheConstants.{INTERVALS_MAX};
ghost use Rattle.key_intervals.specs.declared.given.Given.{Given};
ghost use Rattle.key_intervals.specs.Index.{after_merge, after_split, begins_by_key, IsLastBegun};

use crate::given::Given;
use mw_types::{Duplicate, Key, NoMemory};
use std::alloc::Global;
use std::marker::Model;

// Numbers of intervals, which a search for a key goes through by halves.
#[derive(Drop)]
pub(crate) struct Order {
    numbers: Vec<u32>,
}

impl Model for Order {
    ghost use Rattle.std.specs.Prelude.{List, ℕ};

    ghost Value = { List ℕ };

    ghost view = { λ order. order.numbers.items };
}

impl Duplicate for Order {
    fn copy(&self, alloc: Global) -> Result<Order, NoMemory> {
        Ok(Order {
            numbers: Vec::from_slice(alloc, self.numbers.as_slice())?,
        })
    }
}

impl Order {
    // The order of these numbers.
    pub(crate) fn of(numbers: Vec<u32>) -> Order
        ensures { result ≡ numbers.items }
    {
        Order { numbers }
    }

    // The numbers in order.
    pub(crate) fn numbers(&self) -> &[u32]
        ensures { result.now ≡ self.now }
    {
        self.numbers.as_slice()
    }

    // The order after a split that gave `first` and the number after it.
    pub(crate) fn split(&self, alloc: Global, ended: u32, first: u32) -> Result<Order, NoMemory>
        requires few { first < INTERVALS_MAX }
        ensures { IfOk result (λ order. order ≡ flat_map (after_split ended first) self.now) }
    {
        let mut numbers = Vec::new(alloc);
        for number in &self.numbers {
            push_after_split(&mut numbers, *number, ended, first)?;
        }
        Ok(Order { numbers })
    }

    // The order after a merge that gave `first`.
    pub(crate) fn merged(
        &self,
        alloc: Global,
        low: u32,
        high: u32,
        first: u32,
    ) -> Result<Order, NoMemory>
        ensures { IfOk result (λ order. order ≡ flat_map (after_merge low high first) self.now) }
    {
        let mut numbers = Vec::new(alloc);
        for number in &self.numbers {
            push_after_merge(&mut numbers, *number, low, high, first)?;
        }
        Ok(Order { numbers })
    }
}

// Puts another order in the place of a part's.
pub(crate) fn put(orders: &mut Vec<Order>, part: u32, order: Order)
    requires there { part < length orders.old.items }
    ensures { orders.new.items ≡ slice_set orders.old.items part order }
{
    orders[part as usize] = order;
}

// Appends what stands in the place of a number after a split.
fn push_after_split(
    numbers: &mut Vec<u32>,
    number: u32,
    ended: u32,
    first: u32,
) -> Result<(), NoMemory>
    requires few { first < INTERVALS_MAX }
    ensures { OnOk result (numbers.new.items ≡ numbers.old.items ++ after_split ended first number) }
{
    if number == ended {
        numbers.push(first)?;
        numbers.push(first + 1)?;
    } else {
        numbers.push(number)?;
    }
    Ok(())
}

// Appends what stands in the place of a number after a merge.
fn push_after_merge(
    numbers: &mut Vec<u32>,
    number: u32,
    low: u32,
    high: u32,
    first: u32,
) -> Result<(), NoMemory>
    ensures { OnOk result
        (numbers.new.items ≡ numbers.old.items ++ after_merge low high first number) }
{
    if number == low {
        numbers.push(first)?;
    } else if number != high {
        numbers.push(number)?;
    }
    Ok(())
}

// Where among numbers the last stands whose interval begins by the key. The first one's does so for each
// key that is looked for.
pub(crate) fn last_begun(all: &[Given], numbers: &[u32], key: &Key) -> usize
    requires some { 0 < length numbers.now }
    requires there { All (λ number. number < length all.now) numbers.now }
    ensures { IsLastBegun all.now numbers.now key.now result }
{
    let mut low = 0;
    let mut high = numbers.len();
    while low + 1 < high {
        let middle = low + (high - low) / 2;
        if begins_by(all, numbers[middle], key) {
            low = middle;
        } else {
            high = middle;
        }
    }
    low
}

// Whether the interval of a number begins by a key.
fn begins_by(all: &[Given], interval: u32, key: &Key) -> bool
    requires there { interval < length all.now }
    ensures { result ≡ begins_by_key all.now key.now interval }
{
    all[interval as usize].bounds.from.cmp(key).is_le()
}
