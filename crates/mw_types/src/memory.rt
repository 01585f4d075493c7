//! The refusal where memory ran out, and copies that may meet it.
ghost use Rattle.std.specs.Prelude.{◌≡◌, IfOk};

use std::alloc::{AllocError, AllocFailed, Global};

/// Memory ran out.
#[derive(Clone, Copy, PartialEq, Eq)]
pub struct NoMemory;

impl From<AllocError> for NoMemory {
    fn from(_refused: AllocError) -> NoMemory {
        NoMemory
    }
}

impl<T: Drop> From<AllocFailed<T>> for NoMemory {
    fn from(_refused: AllocFailed<T>) -> NoMemory {
        NoMemory
    }
}

/// A value that can be made again, where memory allows.
pub trait Duplicate: Drop + Sized {
    /// An equal value of its own.
    fn copy(&self, alloc: Global) -> Result<Self, NoMemory>
        ensures copied { IfOk result (λ copy. copy ≡ self.now) };

    /// Equal values of all of these, in their order. What lies in the value itself is taken over by whole
    /// slices.
    fn copy_all(items: &[Self], alloc: Global) -> Result<Vec<Self>, NoMemory>
        ensures copied_all { IfOk result (λ all. all.items ≡ items.now) }
    {
        let mut all = Vec::with_capacity(alloc, items.len())?;
        for item in items {
            all.push(item.copy(alloc)?)?;
        }
        Ok(all)
    }
}

impl Duplicate for u8 {
    fn copy(&self, _alloc: Global) -> Result<u8, NoMemory> {
        Ok(*self)
    }

    fn copy_all(items: &[u8], alloc: Global) -> Result<Vec<u8>, NoMemory> {
        Ok(Vec::from_slice(alloc, items)?)
    }
}

impl Duplicate for i64 {
    fn copy(&self, _alloc: Global) -> Result<i64, NoMemory> {
        Ok(*self)
    }

    fn copy_all(items: &[i64], alloc: Global) -> Result<Vec<i64>, NoMemory> {
        Ok(Vec::from_slice(alloc, items)?)
    }
}
