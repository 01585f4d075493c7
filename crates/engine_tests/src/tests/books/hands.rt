//! What one has in hand in the example once both intervals are claimed.
ghost use Rattle.std.specs.Prelude.{◌≡◌, ◌∷◌, []};
ghost use Rattle.worked_examples.specs.First.{closes, counts, end_of, row_a, window};
ghost use Rattle.worked_examples.specs.Drained.{injector_row};
ghost use Rattle.book.specs.declared.proposal.Proposal.TheVariants as proposals;
ghost use Rattle.worked_examples.specs.Rising.{sent_delivery};
ghost use Rattle.engine_tests.specs.TestBooks.{first_lease};

use book::{Lease, Proposal};
use mw_types::RowName;

// The leases of the two intervals, the names of the two rows, and what is proposed of them.
#[derive(Drop)]
pub(crate) struct Hands {
    pub(crate) source: Lease,
    pub(crate) count: Lease,
    pub(crate) injector: RowName,
    pub(crate) a: RowName,
    pub(crate) injecting: Proposal,
    pub(crate) handling: Proposal,
    pub(crate) firing: Proposal,
    ghost first: { source ≡ first_lease 0 },
    ghost second: { count ≡ first_lease 1 },
    ghost sender: { injector ≡ injector_row },
    ghost receiver: { a ≡ row_a },
    ghost injects: { injecting ≡ proposals.Inject 0 },
    ghost handles: { handling ≡ proposals.Handle sent_delivery (counts (window 60 1 ∷ []) 60) },
    ghost fires: { firing ≡ proposals.Fire (end_of 60) 60 (closes [] 60 1) },
}
