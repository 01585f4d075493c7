//! One interval of the keys of one part, and the test whether it has a row.
ghost use Rattle.std.specs.Prelude.{◌≡◌, IfOk};
ghost use Rattle.key_intervals.specs.Intervals.{covers, ends_after};
ghost use Rattle.key_intervals.specs.Division.{overlaps};

use mw_types::{Duplicate, Key, NoMemory, RowName};
use std::alloc::Global;

/// The keys of one part from one key on, and below another where there is one.
#[derive(Drop, PartialEq, Eq)]
pub struct Bounds {
    /// The part's number.
    pub part: u32,
    /// The least key of the interval.
    pub from: Key,
    /// The first key after the interval, or none where it goes on to the last key of the part.
    pub to: Option<Key>,
}

impl Bounds {
    /// Whether a row is in the interval.
    pub fn covers(&self, name: &RowName) -> bool
        ensures { result ≡ covers self.now name.now }
    {
        self.part == name.part
            && self.from.cmp(&name.key).is_le()
            && ends_after(&self.to, &name.key)
    }

    /// Whether a row may be in both intervals: one is, where each has some key.
    pub fn overlaps(&self, other: &Bounds) -> bool
        ensures { result ≡ overlaps self.now other.now }
    {
        self.part == other.part
            && ends_after(&self.to, &other.from)
            && ends_after(&other.to, &self.from)
    }
}

impl Duplicate for Bounds {
    fn copy(&self, alloc: Global) -> Result<Bounds, NoMemory> {
        let from = self.from.copy(alloc)?;
        let to = copied_end(alloc, &self.to)?;
        Ok(Bounds {
            part: self.part,
            from,
            to,
        })
    }
}

// The same end once more.
pub(crate) fn copied_end(alloc: Global, to: &Option<Key>) -> Result<Option<Key>, NoMemory>
    ensures { IfOk result (λ end. end ≡ to.now) }
{
    match to {
        Some(end) => Ok(Some(end.copy(alloc)?)),
        None => Ok(None),
    }
}

// Whether an interval that ends there goes on after the key.
pub(crate) fn ends_after(to: &Option<Key>, key: &Key) -> bool
    ensures { result ≡ ends_after to.now key.now }
{
    match to {
        Some(end) => key.cmp(end).is_lt(),
        None => true,
    }
}
