//! What a step under a lease comes to.
ghost use Rattle.std.specs.Prelude.{List, Some, ℕ, ◌≡◌};
ghost use Rattle.mw_types.specs.declared.entry.Entry.{Entry};
ghost use Rattle.topology.specs.Rules.{IsTopology};
ghost use Rattle.topology.specs.Shapes.{Shape};
ghost use Rattle.topology.specs.Folding.{RoutesView};
ghost use Rattle.run_history.specs.Cases.{CaseShape};
ghost use Rattle.run_history.specs.Fences.{IsCurrent, IsFenced, IsOvertakenBy};
ghost use Rattle.book.specs.Books.{LeaseView};
ghost use Rattle.node.specs.declared.outcome.Outcome.TheVariants as outcomes;
ghost use Rattle.world.specs.scripts.Acts.{Deed, changed_by, done, lost, world_after};
ghost use Rattle.world.specs.scripts.Worlds.{World, world_on};
ghost use Rattle.plans.specs.declared.step.Step.{Step};

/// What is done under a lease is done where the lease is the last of its interval.
///
/// Under a lease that was overtaken nothing is done, and the worker loses the lease.
pub fn overtaken_owners_are_refused()
    ensures current { (shape : Shape) (world : World) (deed : Deed) (lease : LeaseView) →
        deed.under ≡ Some lease → IsCurrent lease.interval lease.seq world.history →
        done shape world deed ≡ (deed.answer, changed_by shape world deed) }
    ensures overtaken { (shape : Shape) (world : World) (deed : Deed) (lease : LeaseView) →
        (newer : ℕ) → deed.under ≡ Some lease →
        IsOvertakenBy newer lease.interval lease.seq world.history →
        done shape world deed ≡ (outcomes.Stale newer, lost shape world deed lease) }
{}

/// Each entry that a script writes carries the last claim of its row's interval.
pub fn scripted_histories_are_fenced()
    ensures fenced { (case : CaseShape) (routes : RoutesView) (history : List Entry)
        (marks : List ℕ) (script : List Step) → IsTopology case.topology →
        IsFenced case.topology history →
        IsFenced case.topology (world_after case (world_on routes history marks) script).history }
{}
