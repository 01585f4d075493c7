//! How a call ends, and what it leaves.
ghost use Rattle.std.specs.Prelude.{◌≡◌, []};

use crate::status::Status;
use run_history::History;
use std::alloc::Global;

/// How a call ended, and what it leaves.
#[derive(Drop)]
pub struct Done<K> {
    /// How it ended.
    pub status: Status,
    /// The keeper that was handed in.
    pub keeper: K,
    /// What happened in the run; nothing, where none was begun.
    pub history: History,
}

/// What a call leaves that began no run.
pub fn unbegun<K>(alloc: Global, status: Status, keeper: K) -> Done<K>
    ensures status { result.status ≡ status }
    ensures keeper { result.keeper ≡ keeper }
    ensures history { result.history ≡ [] }
{
    Done {
        status,
        keeper,
        history: History::new(alloc),
    }
}
