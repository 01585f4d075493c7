//! What a call of a node answers.
ghost use Rattle.std.specs.Prelude.{◌≡◌};

use mw_types::{Bytes, NoMemory, RowName};

/// What a call of a node came to, or a step of a script.
#[derive(Drop)]
pub enum Outcome {
    /// The interval was claimed.
    Claimed {
        /// The lease's sequencer, which is the claim's commit number.
        seq: u64,
    },
    /// An entry was written.
    Committed {
        /// Its commit number.
        commit: u64,
    },
    /// The record was handled, and is still to be written.
    Prepared,
    /// The record was finished already, and is acknowledged again.
    Duplicate,
    /// The message is for a row that another worker has.
    NotMine,
    /// What is pending is to be sent again.
    Queued {
        /// How many records.
        count: u64,
    },
    /// The outbox was sent.
    Sent {
        /// How many messages.
        count: u64,
    },
    /// A message is in flight once more.
    Copied {
        /// The copy's number.
        message: u32,
    },
    /// A message was lost.
    Lost,
    /// The interval's own work was reported.
    Marked {
        /// The interval's mark, in whole microseconds.
        mark: u64,
    },
    /// The interval has a later claim, so that the lease is lost.
    Stale {
        /// The commit number of the interval's last claim.
        newer: u64,
    },
    /// Another had the turn to append.
    Busy {
        /// The word that was found, which names the holder of the turn.
        found: u64,
    },
    /// The worker forgot all.
    Crashed,
    /// There was nothing to do.
    Nothing,
}

/// Why a node did not do a call.
#[derive(Drop)]
pub enum NodeFault {
    /// The history has as many entries as it may have.
    HistoryFull,
    /// The keeper failed.
    KeeperFault,
    /// The keeper gave bytes that are no row that fits its name.
    RowDamaged {
        /// The row's name.
        name: RowName,
        /// The bytes.
        bytes: Bytes,
    },
    /// Memory ran out.
    NoMemory,
}

impl From<NoMemory> for NodeFault {
    ghost use Rattle.std.specs.Prelude.{◌≡◌};
    ghost use Rattle.node.specs.declared.outcome.NodeFault.TheVariants as faults;

    ghost from_gives = { λ _ fault. fault ≡ faults.NoMemory };

    fn from(_want: NoMemory) -> NodeFault {
        NodeFault::NoMemory
    }
}
