//! Messages that are to be sent.
use mw_types::{Delivery, RecordId, RowName};

/// A message, but for the note of what its sender has seen.
#[derive(Drop)]
pub enum Outgoing {
    /// A record, to the row that handles it.
    Deliver {
        /// The record, on its way.
        delivery: Delivery,
        /// The row that sent it.
        sender: RowName,
    },
    /// Word that a record was handled, to the row that sent it.
    Ack {
        /// The row that sent the record.
        to: RowName,
        /// The record's id.
        id: RecordId,
    },
}
