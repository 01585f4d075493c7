//! Timers, Akidau et al., VLDB 2013, section 4.6.

use crate::memory::{Duplicate, NoMemory};
use crate::seq::Seq;
use std::alloc::Global;

/// A timer of one row, which is the same timer as another of that row with this tag and time.
#[derive(Clone, Copy, PartialEq, Eq)]
pub struct Timer {
    /// What its computation knows it by.
    pub tag: u64,
    /// When it is due, in whole microseconds.
    pub time: u64,
    /// Whether it was set by late causes alone.
    pub late: bool,
}

/// A list of timers.
pub type TimerList = Seq<Timer>;

impl Duplicate for Timer {
    fn copy(&self, _alloc: Global) -> Result<Timer, NoMemory> {
        Ok(*self)
    }

    fn copy_all(items: &[Timer], alloc: Global) -> Result<Vec<Timer>, NoMemory> {
        Ok(Vec::from_slice(alloc, items)?)
    }
}
