//! Records, and what a handler produces.
use crate::key::Key;
use crate::memory::{Duplicate, NoMemory};
use crate::seq::Seq;
use std::alloc::Global;

/// A record: a key, a value and a timestamp, Akidau et al., VLDB 2013, section 4.1.
#[derive(Drop, PartialEq, Eq)]
pub struct Record {
    /// The key that its producer gave it.
    pub key: Key,
    /// Its timestamp, in whole microseconds.
    pub stamp: u64,
    /// Its value.
    pub value: i64,
    /// Whether it was declared late.
    pub late: bool,
}

impl Duplicate for Record {
    fn copy(&self, alloc: Global) -> Result<Record, NoMemory> {
        Ok(Record {
            key: self.key.copy(alloc)?,
            stamp: self.stamp,
            value: self.value,
            late: self.late,
        })
    }
}

/// A record that a handler produces; it is late where the handler's cause is.
#[derive(Drop, PartialEq, Eq)]
pub struct Production {
    /// Its key.
    pub key: Key,
    /// Its timestamp, in whole microseconds.
    pub stamp: u64,
    /// Its value.
    pub value: i64,
}

/// A list of productions.
pub type ProductionList = Seq<Production>;

impl Duplicate for Production {
    fn copy(&self, alloc: Global) -> Result<Production, NoMemory> {
        Ok(Production {
            key: self.key.copy(alloc)?,
            stamp: self.stamp,
            value: self.value,
        })
    }
}
