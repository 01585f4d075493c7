//! The example of two lines: its case, and the computations of that case.
ghost use Rattle.std.specs.Prelude.{◌≡◌};
ghost use Rattle.computations.specs.Parts.{part_doings};
ghost use Rattle.topology.specs.Shapes.{injectors_of};
ghost use Rattle.node.specs.Works.{IsWorkOf};
ghost use Rattle.worked_examples.specs.Rising.{rise_case};
ghost use Rattle.engine_tests.specs.TestKinds.{kinds_of};

use crate::tests::made;
use crate::tests::two_lines::two_line_case;
use computations::Kinds;
use run_history::Case;
use std::alloc::Global;
use std::process::Abort;

// What every test is given: windows of 60 over two records, and the computations of that.
#[derive(Drop)]
pub(crate) struct Example {
    pub(crate) case: Case,
    work: Kinds,
    ghost two_lines: { case ≡ rise_case },
    ghost injectors: { work.injectors ≡ injectors_of case.topology },
    ghost kinds: { work.kinds ≡ kinds_of case.topology },
}

impl Example {
    // The computations, which do what a worker asks of them.
    pub(crate) fn work(&self) -> &Kinds
        ensures { IsWorkOf self.now.case.topology (part_doings result.now) }
    {
        &self.work
    }
}

// The case of two lines with its computations.
pub(crate) fn two_lines_example(rt: &impl Abort, alloc: Global) -> Example {
    let case = two_line_case(rt, alloc);
    let work = made(rt, Kinds::of(alloc, &case.topology));
    Example { case, work }
}
