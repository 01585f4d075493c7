//! Messages, with a note of what their sender had seen.
use book::Seen;
use mw_types::{Delivery, RecordId, RowName};
use std::marker::Model;

/// A record on its way to the row that handles it. Where the note tells, an entry on the sender's
/// row made it in what the sender had seen.
#[derive(Drop)]
pub struct Parcel<N: Seen> {
    /// The record.
    pub delivery: Delivery,
    /// The row that sent it.
    pub sender: RowName,
    /// What its sender had seen.
    pub note: N,
}

impl<N: Seen> Model for Parcel<N> {
    ghost use Rattle.outbox.specs.Messages.{IsSoBy, ParcelView};
    ghost use Rattle.outbox.specs.declared.outgoing.Outgoing.TheVariants as outgoing;

    ghost Value = { ParcelView N };

    ghost view = { λ p. record { delivery = p.delivery; sender = p.sender; note = p.note } };

    ghost invariant = { λ p. IsSoBy (N.sight p.note) (outgoing.Deliver p.delivery p.sender) };
}

/// Word that a record was handled, on its way to the row that sent it. Where the note tells, the
/// record was handled in what the sender of the word had seen.
#[derive(Drop)]
pub struct Receipt<N: Seen> {
    /// The row that sent the record.
    pub to: RowName,
    /// The record's id.
    pub id: RecordId,
    /// What the sender of the word had seen.
    pub note: N,
}

impl<N: Seen> Model for Receipt<N> {
    ghost use Rattle.outbox.specs.Messages.{IsSoBy, ReceiptView};
    ghost use Rattle.outbox.specs.declared.outgoing.Outgoing.TheVariants as outgoing;

    ghost Value = { ReceiptView N };

    ghost view = { λ r. record { to = r.to; id = r.id; note = r.note } };

    ghost invariant = { λ r. IsSoBy (N.sight r.note) (outgoing.Ack r.to r.id) };
}

/// A message from one worker to another, or to itself.
#[derive(Drop)]
pub enum Message<N: Seen> {
    /// A record to be handled.
    Deliver {
        /// The record, with its sender and a note.
        parcel: Parcel<N>,
    },
    /// Word that a record was handled.
    Ack {
        /// The word, with a note.
        receipt: Receipt<N>,
    },
}
