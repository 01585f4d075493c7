//! Records on their way: to a row of a consumer, or out of the run.
use crate::identity::{RecordId, RowName};
use crate::memory::{Duplicate, NoMemory};
use crate::record::Record;
use crate::seq::Seq;
use std::alloc::Global;

/// A record that is to be handled by one row.
#[derive(Drop, PartialEq, Eq)]
pub struct Delivery {
    /// The record's id.
    pub id: RecordId,
    /// The row that handles it, named by the consumer's extracted key.
    pub to: RowName,
    /// The record, under the key that its producer gave it.
    pub item: Record,
}

/// A list of deliveries.
pub type DeliveryList = Seq<Delivery>;

impl Duplicate for Delivery {
    fn copy(&self, alloc: Global) -> Result<Delivery, NoMemory> {
        Ok(Delivery {
            id: self.id,
            to: self.to.copy(alloc)?,
            item: self.item.copy(alloc)?,
        })
    }
}

/// A record of a stream that no computation reads: a line of the result.
#[derive(Drop, PartialEq, Eq)]
pub struct Emission {
    /// The record's id.
    pub id: RecordId,
    /// The part that published it.
    pub part: u32,
    /// The record.
    pub item: Record,
}

/// A list of emissions.
pub type EmissionList = Seq<Emission>;

impl Duplicate for Emission {
    fn copy(&self, alloc: Global) -> Result<Emission, NoMemory> {
        Ok(Emission {
            id: self.id,
            part: self.part,
            item: self.item.copy(alloc)?,
        })
    }
}
