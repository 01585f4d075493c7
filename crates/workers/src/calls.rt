//! The calls of a worker in its turn of work: each appends at most one entry, and no claim, a report none, and only
//! the call that injects a line appends one.
ghost use Rattle.std.specs.Prelude.{◌≡◌, ◌<◌, ◌≤◌, IfErr, IfOk, IfSome};
ghost use Rattle.node.specs.Fits.{Fits};
ghost use Rattle.workers.specs.Serving.{HasLeastLinesOf, HasServedLines, IsBusy, appended, lines_by, lines_told};
ghost use Rattle.workers.specs.Slices.{IsSliceFault};

use book::{Desk, Seen};
use computations::Computation;
use node::{Node, NodeFault, Outcome};
use run_history::Case;
use std::alloc::Global;

// A call of a worker.
pub(crate) trait Call<N: Seen> {
    ghost use Rattle.std.specs.Prelude.{ℕ, Option};
    ghost use Rattle.run_history.specs.Cases.{CaseShape};

    // In which cases it may be made.
    ghost may: { Self → CaseShape → Type 0 };

    // How many entries it appends at most.
    ghost most: { Self → ℕ };

    // The injector of which it injects the next line, where it does that.
    ghost injector: { Self → Option ℕ };

    // Makes the call.
    fn make<D: Desk<Note = N>>(
        &self,
        alloc: Global,
        node: &mut Node<N>,
        desk: &mut D,
        case: &Case,
    ) -> Result<Outcome, NodeFault>
        requires fits { Fits case.now (D.view desk.old) node.old }
        requires may { may self.now case.now }

        ensures served { HasServedLines case.now (appended result) (lines_by (injector self.now))
            (D.view desk.old) (D.view desk.new) node.old node.new }
        ensures few { appended result ≤ most self.now }
        ensures lines { (IsBusy result → ⊥) → IfSome (injector self.now) (λ part.
            IfOk result (λ outcome. HasLeastLinesOf (lines_told outcome) case.now part node.old
            (D.view desk.old) (D.view desk.new))) }
        ensures fault { IfErr result (IsSliceFault (D.view desk.old) (D.view desk.new)) }
        ensures loan { D.loan desk.new ≡ D.loan desk.old }
        ensures home { D.home desk.new ≡ D.home desk.old };
}

// What is prepared is written.
#[derive(Clone, Copy)]
pub(crate) struct Commit;

impl<N: Seen> Call<N> for Commit {
    ghost use Rattle.std.specs.Prelude.{None, ⊤};

    ghost may = { λ call case. ⊤ };

    ghost most = { λ call. 1 };

    ghost injector = { λ call. None };

    fn make<D: Desk<Note = N>>(
        &self,
        alloc: Global,
        node: &mut Node<N>,
        desk: &mut D,
        case: &Case,
    ) -> Result<Outcome, NodeFault> {
        node.commit(alloc, desk, case)
    }
}

// The next timer of a part fires.
#[derive(Drop)]
pub(crate) struct Fire<'a, C: Computation> {
    pub(crate) work: &'a C,
    pub(crate) part: u32,
}

impl<'a, N: Seen, C: Computation> Call<N> for Fire<'a, C> {
    ghost use Rattle.std.specs.Prelude.{None};
    ghost use Rattle.outbox.specs.Messages.{IsComputation};
    ghost use Rattle.node.specs.Works.{IsWorkOf};

    ghost may = { λ call case. IsComputation case.topology call.part
        × IsWorkOf case.topology (C.does call.work.now) };

    ghost most = { λ call. 1 };

    ghost injector = { λ call. None };

    fn make<D: Desk<Note = N>>(
        &self,
        alloc: Global,
        node: &mut Node<N>,
        desk: &mut D,
        case: &Case,
    ) -> Result<Outcome, NodeFault> {
        node.fire(alloc, desk, case, self.work, self.part)
    }
}

// The next line of an injector is injected.
#[derive(Clone, Copy)]
pub(crate) struct Inject {
    pub(crate) part: u32,
}

impl<N: Seen> Call<N> for Inject {
    ghost use Rattle.std.specs.Prelude.{◌<◌, Some};
    ghost use Rattle.topology.specs.Shapes.{injectors_of};

    ghost may = { λ call case. call.part < injectors_of case.topology };

    ghost most = { λ call. 1 };

    ghost injector = { λ call. Some call.part };

    fn make<D: Desk<Note = N>>(
        &self,
        alloc: Global,
        node: &mut Node<N>,
        desk: &mut D,
        case: &Case,
    ) -> Result<Outcome, NodeFault> {
        desk.sound();
        node.inject(alloc, desk, case, self.part)
    }
}

// A row of an interval forgets ids, where it has 64.
#[derive(Clone, Copy)]
pub(crate) struct Purge {
    pub(crate) interval: u32,
}

impl<N: Seen> Call<N> for Purge {
    ghost use Rattle.std.specs.Prelude.{None, ⊤};

    ghost may = { λ call case. ⊤ };

    ghost most = { λ call. 1 };

    ghost injector = { λ call. None };

    fn make<D: Desk<Note = N>>(
        &self,
        alloc: Global,
        node: &mut Node<N>,
        desk: &mut D,
        case: &Case,
    ) -> Result<Outcome, NodeFault> {
        node.purge(alloc, desk, case, self.interval, 64)
    }
}

// The own work of an interval is reported.
#[derive(Clone, Copy)]
pub(crate) struct Report {
    pub(crate) interval: u32,
}

impl<N: Seen> Call<N> for Report {
    ghost use Rattle.std.specs.Prelude.{◌<◌, None};
    ghost use Rattle.topology.specs.Rules.{interval_count};

    ghost may = { λ call case. call.interval < interval_count case.topology };

    ghost most = { λ call. 0 };

    ghost injector = { λ call. None };

    fn make<D: Desk<Note = N>>(
        &self,
        alloc: Global,
        node: &mut Node<N>,
        desk: &mut D,
        case: &Case,
    ) -> Result<Outcome, NodeFault> {
        node.report(alloc, desk, case, self.interval)
    }
}
