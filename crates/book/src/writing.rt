//! What one entry writes into a row.
use crate::proposal::Proposal;
use mw_types::RecordId;

/// What is written of one row by one entry. It lends what is proposed, so that handing it on costs
/// nothing.
#[derive(Clone, Copy)]
pub enum Writing<'p> {
    /// An injector's next line is injected, a record was handled, or a timer fired.
    Propose {
        /// What is proposed.
        proposal: &'p Proposal,
    },
    /// A sender learns that what it made was handled: the row no longer waits for the id.
    Settle {
        /// The id.
        id: RecordId,
    },
    /// The row forgets the ids of records that are finished: those below the floor.
    Purge {
        /// The floor.
        floor: u64,
    },
}
