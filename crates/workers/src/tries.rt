//! A call of a worker that is tried until nobody else has the turn.
ghost use Rattle.std.specs.Prelude.{◌≡◌, ◌<◌, true, IfErr, IfOk, IfSome, IsFalse, IsTrue};
ghost use Rattle.run_history.specs.Finished.{is_handled};
ghost use Rattle.topology.specs.Shapes.{parts_of};
ghost use Rattle.node.specs.Fits.{Fits};
ghost use Rattle.workers.specs.Serving.{HasLeastLinesOf, HasServed, HasServedLines, IsBusy, entries_of, lines_by, lines_told};
ghost use Rattle.workers.specs.Slices.{IsSliceFault};

use crate::calls::Call;
use crate::waiting::wait;
use book::{Desk, Seen};
use mw_types::{RecordId, RowName};
use node::{Node, NodeFault, Outcome};
use run_history::Case;
use std::alloc::Global;
use std::sync::Wait;

// Whether another had the turn.
fn is_busy(answer: &Result<Outcome, NodeFault>) -> bool
    ensures busy { IsTrue result → IsBusy answer.now }
    ensures not_busy { IsFalse result → IsBusy answer.now → ⊥ }
{
    match answer {
        Ok(Outcome::Busy { found: _ }) => true,
        _ => false,
    }
}

// Makes a call, again and again while another has the turn.
pub(crate) fn until_free<R: Wait, N: Seen, D: Desk<Note = N>, A: Call<N>>(
    rt: &R,
    alloc: Global,
    node: &mut Node<N>,
    desk: &mut D,
    case: &Case,
    call: &A,
) -> Result<Outcome, NodeFault>
    requires fits { Fits case.now (D.view desk.old) node.old }
    requires may { A.may call.now case.now }

    ensures served { HasServedLines case.now (A.most call.now) (lines_by (A.injector call.now))
        (D.view desk.old) (D.view desk.new) node.old node.new }
    ensures answered { IfOk result (λ outcome. HasServedLines case.now (entries_of outcome)
        (lines_by (A.injector call.now)) (D.view desk.old) (D.view desk.new) node.old node.new) }
    ensures lines { IfSome (A.injector call.now) (λ part. IfOk result (λ outcome.
        HasLeastLinesOf (lines_told outcome) case.now part node.old
        (D.view desk.old) (D.view desk.new))) }
    ensures fault { IfErr result (IsSliceFault (D.view desk.old) (D.view desk.new)) }
    ensures loan { D.loan desk.new ≡ D.loan desk.old }
    ensures home { D.home desk.new ≡ D.home desk.old }
{
    let mut waited = 0;
    for _ in rt.forever() {
        let answer = call.make(alloc, node, desk, case);
        if !is_busy(&answer) {
            return answer;
        }
        waited = wait(rt, waited);
    }
    unreachable!()
}

// Has a row no longer wait for a record that was handled, again and again while another has the turn: word
// that was taken out of its message is not dropped.
pub(crate) fn until_settled<R: Wait, N: Seen, D: Desk<Note = N>>(
    rt: &R,
    alloc: Global,
    node: &mut Node<N>,
    desk: &mut D,
    case: &Case,
    to: &RowName,
    id: RecordId,
) -> Result<Outcome, NodeFault>
    requires fits { Fits case.now (D.view desk.old) node.old }
    requires part { to.now.part < parts_of case.now.topology }
    requires handled { IfSome (D.view desk.old).told
        (λ _. is_handled id (D.view desk.old).seen ≡ true) }

    ensures free { IsBusy result → ⊥ }
    ensures served { HasServed case.now 1 (D.view desk.old) (D.view desk.new)
        node.old node.new }
    ensures fault { IfErr result (IsSliceFault (D.view desk.old) (D.view desk.new)) }
    ensures loan { D.loan desk.new ≡ D.loan desk.old }
    ensures home { D.home desk.new ≡ D.home desk.old }
{
    let mut waited = 0;
    for _ in rt.forever() {
        let answer = node.settle(alloc, desk, case, to, id);
        if !is_busy(&answer) {
            return answer;
        }
        waited = wait(rt, waited);
    }
    unreachable!()
}
