//! A record that was handled and is not yet written.
ghost use Rattle.std.specs.Prelude.{◌≡◌, IfSome, MatchOption, None, Some, false};
ghost use Rattle.std.specs.Option.{option_map_or};
ghost use Rattle.book.specs.declared.proposal.Proposal.TheVariants as proposals;
ghost use Rattle.node.specs.Steps.{IsWorkThere, is_work_in};
ghost use Rattle.node.specs.Workers.{IsHandle};

use book::Proposal;
use mw_types::{Delivery, Effects, RowName};
use run_history::Case;
use std::marker::Model;

// A work that is prepared: the proposal is that a record was handled.
#[derive(Drop)]
pub(crate) struct Work {
    pub(crate) sender: RowName,
    pub(crate) proposal: Proposal,
}

impl Model for Work {
    ghost use Rattle.node.specs.Workers.{IsHandle, WorkView};

    ghost Value = { WorkView };

    ghost view = { λ work. record { sender = work.sender; proposal = work.proposal } };

    ghost invariant = { λ work. IsHandle work.proposal };
}

impl Work {
    // The record, and what its handler left.
    pub(crate) fn parts(&self) -> (&Delivery, &Effects)
        ensures { self.now.proposal ≡ proposals.Handle result.0.now result.1.now }
    {
        handled(&self.proposal).unwrap()
    }

    // Whether the record goes to a row of this interval.
    pub(crate) fn is_in(&self, case: &Case, interval: u32) -> bool
        requires { IsWorkThere case.now.topology self.now }
        ensures { result ≡ is_work_in case.now.topology interval self.now }
    {
        let (delivery, _) = self.parts();
        case.interval_of(&delivery.to) == interval
    }
}

// The record of a proposal that it was handled, and what its handler left.
fn handled(proposal: &Proposal) -> Option<(&Delivery, &Effects)>
    ensures { MatchOption result (¬ IsHandle proposal.now)
        (λ parts. proposal.now ≡ proposals.Handle parts.0.now parts.1.now) }
{
    match proposal {
        Proposal::Handle { delivery, effects } => Some((delivery, effects)),
        _ => None,
    }
}

// Whether a work that is prepared is of a record for a row of this interval.
pub(crate) fn is_prepared_in(case: &Case, interval: u32, prepared: &Option<Work>) -> bool
    requires { IfSome prepared.now (IsWorkThere case.now.topology) }
    ensures { result ≡ option_map_or (is_work_in case.now.topology interval) prepared.now false }
{
    match prepared {
        Some(work) => work.is_in(case, interval),
        None => false,
    }
}

// Lets go of a work that was prepared.
pub(crate) fn unprepared(prepared: &mut Option<Work>)
    ensures { prepared.new ≡ None }
{
    drop(prepared.take());
}
