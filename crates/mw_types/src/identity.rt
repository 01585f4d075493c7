//! The names of records and rows.
ghost use Rattle.std.specs.Prelude.{◌≡◌, ◌↔◌, ◌<◌, ◌≤◌, ◌^◌, length, IfOk, IfSome, IsSome};
ghost use Rattle.mw_types.specs.PrintedIds.{printed_id};

use crate::key::Key;
use crate::memory::{Duplicate, NoMemory};
use crate::seq::Seq;
use crate::text::Name;
use std::alloc::Global;
use uuid::Uuid;

/// The id that a record gets when it is produced: the commit number of the entry that made it, and
/// its place among what that entry made.
#[derive(Clone, Copy, PartialEq, Eq, PartialOrd, Ord)]
pub struct RecordId {
    /// The entry's commit number, below 2^32.
    pub commit: u64,
    /// The place among what the entry made, below 512.
    pub index: u32,
}

impl RecordId {
    /// The id as it is printed: a UUID of version 8. Beside the fixed bits of the version and the
    /// variant, its first 48 bits are 0, the next 12 hold the place (`index`), and the last 62 the
    /// commit number.
    pub fn uuid(&self, alloc: Global) -> Result<Name, NoMemory>
        requires commit { self.now.commit < 2 ^ 32 }
        requires index { self.now.index < 512 }
        ensures printed { IfOk result (λ text. text ≡ printed_id self.now) }
    {
        let id = Uuid::from_u64_pair(VERSION_8 + u64::from(self.index), VARIANT + self.commit);
        let mut room = Uuid::encode_buffer();
        Name::of(alloc, id.hyphenated().encode_lower(&mut room))
    }
}

// The version of a UUID whose content is its maker's own, in its upper half.
const VERSION_8: u64 = 0x8000;

// The variant of the UUIDs of RFC 9562, in the lower half.
const VARIANT: u64 = 1 << 63;

/// A list of ids.
pub type IdList = Seq<RecordId>;

impl Duplicate for RecordId {
    fn copy(&self, _alloc: Global) -> Result<RecordId, NoMemory> {
        Ok(*self)
    }

    fn copy_all(items: &[RecordId], alloc: Global) -> Result<Vec<RecordId>, NoMemory> {
        Ok(Vec::from_slice(alloc, items)?)
    }
}

/// The name of the state that one part keeps for one key; an injector's row has the empty key.
#[derive(Drop, PartialEq, Eq, PartialOrd, Ord)]
pub struct RowName {
    /// The part's number.
    pub part: u32,
    /// The row's key.
    pub key: Key,
}

impl RowName {
    /// An equal name where its key has at most 30 bytes, which takes no memory, and none where it has
    /// more.
    pub fn short_copy(&self) -> Option<RowName>
        ensures copy { IfSome result (λ name. name ≡ self.now) }
        ensures short { IsSome result ↔ (length self.now.key ≤ 30) }
    {
        match self.key.short_copy() {
            Some(key) => Some(RowName {
                part: self.part,
                key,
            }),
            None => None,
        }
    }
}

impl Duplicate for RowName {
    fn copy(&self, alloc: Global) -> Result<RowName, NoMemory> {
        Ok(RowName {
            part: self.part,
            key: self.key.copy(alloc)?,
        })
    }
}
