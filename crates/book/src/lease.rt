//! What a claim gives.
ghost use Rattle.std.specs.Prelude.{◌≡◌};

use std::marker::Model;

/// A sequencer, Akidau et al., VLDB 2013, section 6.2: the right to write the rows of one interval,
/// until the next claim of the interval. It is made by a claim alone.
#[derive(Drop)]
pub struct Lease {
    pub(crate) interval: u32,
    pub(crate) seq: u64,
}

impl Model for Lease {
    ghost use Rattle.book.specs.Books.{LeaseView};

    ghost Value = { LeaseView };

    ghost view = { λ lease. record { interval = lease.interval; seq = lease.seq } };
}

impl Lease {
    /// The interval that was claimed.
    pub fn interval(&self) -> u32
        ensures { result ≡ self.now.interval }
    {
        self.interval
    }

    /// The sequencer, which is the claim's commit number.
    pub fn seq(&self) -> u64
        ensures { result ≡ self.now.seq }
    {
        self.seq
    }
}
