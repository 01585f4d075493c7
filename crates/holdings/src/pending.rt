//! What is pending in the rows of an interval that is held.
ghost use Rattle.std.specs.Prelude.{◌≡◌, ◌++◌, IfOk, IfSome, IsSome, OnOk};
ghost use Rattle.holdings.specs.Holding.{held_at};
ghost use Rattle.holdings.specs.Pendings.{ArePendingAmong, sent_in, sent_of};

use crate::holdings::Holdings;
use mw_types::{Delivery, Duplicate, NoMemory, RowName, Seq};
use row_parts::Row;
use std::alloc::Global;

/// A delivery that is pending, with the name of the row that sent it.
#[derive(Drop)]
pub struct Sent {
    /// The name of the row that sent it.
    pub sender: RowName,
    /// The delivery.
    pub delivery: Delivery,
}

/// A list of deliveries that are pending.
pub type SentList = Seq<Sent>;

impl Holdings {
    /// All that is pending in the rows of an interval that is held, which a sweep sends again.
    pub fn pending(&self, alloc: Global, interval: u32) -> Result<SentList, NoMemory>
        requires there { IsSome (held_at self.now interval) }
        ensures pending { IfOk result (λ sent.
            IfSome (held_at self.now interval) (λ held. ArePendingAmong held.rows sent)) }
    {
        self.held(interval).pending(alloc)
    }
}

// Appends what is pending in a row.
pub(crate) fn push_row(
    alloc: Global,
    sent: &mut SentList,
    name: &RowName,
    row: &Row,
) -> Result<(), NoMemory>
    ensures { OnOk result (sent.new ≡ sent.old ++ sent_in (name.now, row.now)) }
{
    for delivery in row.pending.as_slice() {
        sent.push(copied(alloc, name, delivery)?)?;
    }
    Ok(())
}

// A delivery, with the name of its sender, again.
fn copied(alloc: Global, name: &RowName, delivery: &Delivery) -> Result<Sent, NoMemory>
    ensures { IfOk result (λ sent. sent ≡ sent_of name.now delivery.now) }
{
    Ok(Sent {
        sender: name.copy(alloc)?,
        delivery: delivery.copy(alloc)?,
    })
}
