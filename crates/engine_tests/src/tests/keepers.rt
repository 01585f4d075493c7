//! Keepers of the tests: one in memory, and one that tells no row.
use crate::tests::made;
use mw_types::{Bytes, CallList, Key, RowName};
use row_keeper::{BlindKeeper, KeptRow, MemKeeper};
use std::alloc::Global;
use std::process::Abort;

// A keeper in memory whose calls of these numbers fail. The first is that of the book's start.
pub(crate) fn in_memory(rt: &impl Abort, alloc: Global, calls: &[u64]) -> MemKeeper {
    MemKeeper::new(alloc, CallList::from_vec(made(rt, calls.to_vec(alloc))))
}

// A keeper that tells no row, and shows these bytes for the key `z` of a part. Of part 7, which no test has, it shows
// none of a part that is there.
pub(crate) fn blind(rt: &impl Abort, alloc: Global, part: u32, shown: &[u8]) -> BlindKeeper {
    let key = made(rt, Key::of(alloc, "z"));
    let bytes = Bytes::from_vec(made(rt, shown.to_vec(alloc)));
    let name = RowName { part, key };
    BlindKeeper::new(KeptRow { name, bytes })
}
