//! Refusals of the database, as faults of a keeper.

use row_keeper::KeeperFault;
use sqlite::{Error, ErrorCode};

/// Why the database did not do a call: every refusal but want of memory is a failure.
pub(crate) fn fault_of(error: Error) -> KeeperFault {
    match error {
        Error::SqliteFailure(ErrorCode::OutOfMemory) => KeeperFault::NoMemory,
        _ => KeeperFault::Failed,
    }
}
