//! What a part gives of all that it reads.
ghost use Rattle.std.specs.Prelude.{◌≡◌, ◌+◌, IfOk};

use mw_types::{NoMemory, Record, Seq};

// The records that a part gives, in some order, and how often it fires.
#[derive(Drop)]
pub(crate) struct Given {
    pub(crate) records: Seq<Record>,
    pub(crate) fires: u64,
}

// A sum with a number more, where it fits.
pub(crate) fn added(sum: u64, more: u64) -> Result<u64, NoMemory>
    ensures { IfOk result (λ n. n ≡ sum + more) }
{
    match sum.checked_add(more) {
        Some(n) => Ok(n),
        None => Err(NoMemory),
    }
}
