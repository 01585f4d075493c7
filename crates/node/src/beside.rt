//! A worker beside another that acts.
ghost use Rattle.std.specs.Prelude.{◌≡◌};
ghost use Rattle.run_history.specs.Cases.{CaseShape};
ghost use Rattle.book.specs.Desks.{DeskView, IsSound};
ghost use Rattle.holdings.specs.Holding.{HasSeenOthers};
ghost use Rattle.node.specs.Fits.{Fits};
ghost use Rattle.node.specs.Workers.{NodeView};

/// A worker that fits still does beside another that acts: a desk may come to see more, of which
/// nothing was written under a lease that the worker has. It does nothing when it runs.
pub fn node_fits_beside()
    ensures beside { (case : CaseShape) (old new : DeskView) (node : NodeView) →
        IsSound old → IsSound new → HasSeenOthers old new node.held →
        Fits case old node → Fits case new node }
{}
