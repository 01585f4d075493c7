//! What a drain does where all is acknowledged: the low watermarks are found, and a due timer fires.
ghost use Rattle.std.specs.Prelude.{◌≡◌, ◌<◌, ◌≤◌, IfErr, IfOk, OnOk, None, Some, slice_get, true, false};
ghost use Rattle.key_intervals.specs.declared.bounds.Bounds.{Bounds};
ghost use Rattle.topology.specs.Rules.{interval_count};
ghost use Rattle.run_history.specs.Cases.{intervals_of};
ghost use Rattle.run_history.specs.Fences.{interval_of};
ghost use Rattle.run_history.specs.Runs.{run_of};
ghost use Rattle.node.specs.Works.{IsWorkOf};
ghost use Rattle.outbox.specs.Messages.{IsComputation};
ghost use Rattle.run_history.specs.Watermarks.{least};
ghost use Rattle.book.specs.Books.{core_of};
ghost use Rattle.book.specs.Lawful.{IsLawful};
ghost use Rattle.watermark.specs.Marks.{feeding_marks, marks_of};
ghost use Rattle.node.specs.Asking.{IsNextTimer, MayAskFire};
ghost use Rattle.node.specs.FireSteps.{IsLeftByHandler, IsSetAt, IsTimerToFire};
ghost use Rattle.world.specs.drains.ReportRounds.{marks_after_round};
ghost use Rattle.world.specs.drains.Turns.{AreExact, HasAskedOne, HasFailed, HasReported, HasStepped, HasTurned, IsAtWork, IsFedBy, IsFullAsking, IsFullUnended, IsQuiet, IsSettled, WhereTold, worker_of};

use crate::drains::writes::{fault_of, put};
use book::{Book, Desk, OwnDesk, Proposal, Writing};
use computations::Computation;
use holdings::{Holdings, RowTimer};
use mw_types::{END, Effects};
use node::{NodeFault, effects_of, first_due};
use outbox::report_work;
use row_keeper::Keeper;
use std::alloc::Global;
use watermark::{inputs, low};

// A part, and the least mark of those that feed each of its intervals.
#[derive(Clone, Copy)]
struct Fed {
    part: u32,
    most: u64,
}

// Reports the own work of each interval, in the order of their numbers.
pub(crate) fn report_all<'a, K: Keeper>(
    alloc: Global,
    book: &mut Book<'a, K>,
    held: &mut Holdings,
) -> Result<(), NodeFault>
    requires at_work { IsAtWork book.old (worker_of held.old) }
    ensures stepped { HasStepped book.old book.new None }
    ensures at_work { OnOk result (IsAtWork book.new (worker_of held.new)) }
    ensures round { OnOk result (WhereTold book.old (book.new.marks
        ≡ marks_after_round book.old.case (run_of book.old.case.topology book.old.history) book.old.marks)) }
    ensures failed { IfErr result (HasFailed book.old book.new) }
    ensures memory { IfErr result (λ why. why ≡ NodeFault.NoMemory) }
{
    let case = book.case();
    // No interval is of this part, so the first one asks.
    let mut fed = Fed {
        part: case.topology.parts(),
        most: END,
    };
    for interval in 0..case.interval_count() {
        fed = fed_at(book, interval, fed);
        report(alloc, book, held, interval, fed.most)?;
    }
    Ok(())
}

// What feeds an interval: what fed the last one, where both are of one part, since no part feeds itself.
fn fed_at<'a, K: Keeper>(book: &Book<'a, K>, interval: u32, last: Fed) -> Fed
    requires there { interval < interval_count book.now.case.topology }
    requires last { WhereTold book.now (IsFedBy book.now last.part last.most) }
    ensures fed { WhereTold book.now (IsFedBy book.now result.part result.most) }
    ensures part { (bounds : Bounds) →
        slice_get (intervals_of book.now.case.topology) interval ≡ Some bounds →
        bounds.part ≡ result.part }
{
    let case = book.case();
    let _count = case.interval_count();
    let part = case.bounds(interval).part;
    if part == last.part {
        return last;
    }
    let most = inputs(case, interval, book.marks());
    Fed { part, most }
}

// Reports the own work of one interval, where that can raise its mark: those that feed it have come up to `most`.
fn report<'a, K: Keeper>(
    alloc: Global,
    book: &mut Book<'a, K>,
    held: &mut Holdings,
    interval: u32,
    most: u64,
) -> Result<(), NodeFault>
    requires at_work { IsAtWork book.old (worker_of held.old) }
    requires there { interval < interval_count book.old.case.topology }
    requires most { WhereTold book.old
        (most ≡ least (feeding_marks book.old.case.topology interval book.old.marks)) }
    ensures stepped { HasStepped book.old book.new None }
    ensures at_work { OnOk result (IsAtWork book.new (worker_of held.new)) }
    ensures reported { OnOk result (WhereTold book.old (HasReported book.old book.new interval)) }
    ensures failed { IfErr result (HasFailed book.old book.new) }
    ensures memory { IfErr result (λ why. why ≡ NodeFault.NoMemory) }
{
    let case = book.case();
    // Every topology keeps the rules that intervals need.
    let _parts = case.topology.parts();
    let _count = case.interval_count();
    // A mark that has come up to those that feed its interval cannot rise.
    let mark = book.mark(interval);
    if most <= mark {
        return Ok(());
    }
    raise(alloc, book, held, interval)
}

// Reports the own work of one interval, which no other's turn and no later claim refuses.
fn raise<'a, K: Keeper>(
    alloc: Global,
    book: &mut Book<'a, K>,
    held: &mut Holdings,
    interval: u32,
) -> Result<(), NodeFault>
    requires at_work { IsAtWork book.old (worker_of held.old) }
    requires there { interval < interval_count book.old.case.topology }
    ensures stepped { HasStepped book.old book.new None }
    ensures at_work { OnOk result (IsAtWork book.new (worker_of held.new)) }
    ensures reported { OnOk result (WhereTold book.old (HasReported book.old book.new interval)) }
    ensures failed { IfErr result (HasFailed book.old book.new) }
    ensures memory { IfErr result (λ why. why ≡ NodeFault.NoMemory) }
{
    let case = book.case();
    // Every topology keeps the rules that intervals need.
    let _parts = case.topology.parts();
    let _count = case.interval_count();
    let mut desk = OwnDesk { book };
    desk.sound();
    let reported = report_work(held, alloc, &mut desk, case, interval);
    desk.sound();
    match reported {
        Ok(_) => Ok(()),
        Err(why) => Err(fault_of(why)),
    }
}

// Fires the next timer of the first computation that has a due one.
pub(crate) fn fire_first<'a, K: Keeper, C: Computation>(
    alloc: Global,
    book: &mut Book<'a, K>,
    work: &C,
    held: &mut Holdings,
) -> Result<bool, NodeFault>
    requires work { IsWorkOf book.old.case.topology (C.does work.now) }
    requires at_work { IsAtWork book.old (worker_of held.old) }
    requires settled { IsSettled book.old.case book.old.history }
    requires exact { WhereTold book.old (AreExact book.old) }
    ensures turned { IfOk result (HasTurned book.old book.new) }
    ensures at_work { OnOk result (IsAtWork book.new (worker_of held.new)) }
    ensures quiet { IfOk result (λ more. more ≡ false →
        WhereTold book.old (IsQuiet book.old.case book.old.history)) }
    ensures failed { IfErr result (HasFailed book.old book.new) }
    ensures unended { IfErr result (IsFullUnended book.old) }
{
    // Its clauses say what always holds of a book.
    book.history();
    let case = book.case();
    for part in case.topology.injectors()..case.topology.parts() {
        let more = fire(alloc, book, work, held, part)?;
        if more {
            return Ok(true);
        }
    }
    Ok(false)
}

// Fires the next timer of a computation, where it is due.
fn fire<'a, K: Keeper, C: Computation>(
    alloc: Global,
    book: &mut Book<'a, K>,
    work: &C,
    held: &mut Holdings,
    part: u32,
) -> Result<bool, NodeFault>
    requires work { IsWorkOf book.old.case.topology (C.does work.now) }
    requires at_work { IsAtWork book.old (worker_of held.old) }
    requires part { IsComputation book.old.case.topology part }
    ensures asked { let case = book.old.case in
        let mark = least (marks_of case.topology part book.old.marks) in
        IfOk result (HasAskedOne book.old book.new
        (MayAskFire case (worker_of held.old) part mark)) }
    ensures lawful { IsLawful book.old.case (core_of book.old) }
    ensures marks { OnOk result (book.new.marks ≡ book.old.marks) }
    ensures at_work { OnOk result (IsAtWork book.new (worker_of held.new)) }
    ensures failed { IfErr result (HasFailed book.old book.new) }
    ensures asking { let case = book.old.case in
        let mark = least (marks_of case.topology part book.old.marks) in
        IfErr result (IsFullAsking (MayAskFire case (worker_of held.old) part mark)) }
{
    // Its clauses say what always holds of a book.
    book.history();
    let case = book.case();
    let mark = low(case, part, book.marks());
    let found = first_due(held, alloc, case, part, mark)?;
    fire_found(alloc, book, work, held, part, found, mark)
}

// Fires what was found to be the next timer of a computation, where it is due.
fn fire_found<'a, K: Keeper, C: Computation>(
    alloc: Global,
    book: &mut Book<'a, K>,
    work: &C,
    held: &mut Holdings,
    part: u32,
    found: Option<RowTimer>,
    mark: u64,
) -> Result<bool, NodeFault>
    requires work { IsWorkOf book.old.case.topology (C.does work.now) }
    requires at_work { IsAtWork book.old (worker_of held.old) }
    requires part { IsComputation book.old.case.topology part }
    requires found { IsTimerToFire book.old.case.topology (worker_of held.old) part mark found }
    requires exact { mark ≡ least (marks_of book.old.case.topology part book.old.marks) }
    ensures asked { IfOk result (HasAskedOne book.old book.new
        (MayAskFire book.old.case (worker_of held.old) part mark)) }
    ensures marks { OnOk result (book.new.marks ≡ book.old.marks) }
    ensures at_work { OnOk result (IsAtWork book.new (worker_of held.new)) }
    ensures failed { IfErr result (HasFailed book.old book.new) }
    ensures asking { IfErr result (IsFullAsking
        (MayAskFire book.old.case (worker_of held.old) part mark)) }
{
    match found {
        Some(found) => {
            let fired = fire_one(alloc, book, work, held, &found, mark);
            drop(found);
            fired
        }
        None => Ok(false),
    }
}

// Fires a timer that is due: its handler is called, and what it leaves is written.
fn fire_one<'a, K: Keeper, C: Computation>(
    alloc: Global,
    book: &mut Book<'a, K>,
    work: &C,
    held: &mut Holdings,
    found: &RowTimer,
    mark: u64,
) -> Result<bool, NodeFault>
    requires work { IsWorkOf book.old.case.topology (C.does work.now) }
    requires at_work { IsAtWork book.old (worker_of held.old) }
    requires part { IsComputation book.old.case.topology found.now.name.part }
    requires next { IsNextTimer book.old.case.topology (worker_of held.old) found.now.name.part mark
        found.now.name found.now.timer }
    requires known { let part = found.now.name.part in
        mark ≤ least (marks_of book.old.case.topology part book.old.marks) }
    ensures asked { let part = found.now.name.part in
        IfOk result (HasAskedOne book.old book.new
        (MayAskFire book.old.case (worker_of held.old) part mark)) }
    ensures marks { OnOk result (book.new.marks ≡ book.old.marks) }
    ensures at_work { OnOk result (IsAtWork book.new (worker_of held.new)) }
    ensures failed { IfErr result (HasFailed book.old book.new) }
    ensures asking { let part = found.now.name.part in
        IfErr result (IsFullAsking (MayAskFire book.old.case (worker_of held.old) part mark)) }
{
    let case = book.case();
    let interval = case.interval_of(&found.name);
    let effects = effects_of(held, alloc, case, work, interval, found)?;
    write_fire(alloc, book, held, interval, found, mark, effects)
}

// Writes that a timer fired, with what its handler left.
fn write_fire<'a, K: Keeper>(
    alloc: Global,
    book: &mut Book<'a, K>,
    held: &mut Holdings,
    interval: u32,
    found: &RowTimer,
    mark: u64,
    effects: Effects,
) -> Result<bool, NodeFault>
    requires at_work { IsAtWork book.old (worker_of held.old) }
    requires covers { interval_of book.old.case.topology found.now.name ≡ Some interval }
    requires next { IsNextTimer book.old.case.topology (worker_of held.old) found.now.name.part mark
        found.now.name found.now.timer }
    requires known { let part = found.now.name.part in
        mark ≤ least (marks_of book.old.case.topology part book.old.marks) }
    requires set { IsSetAt book.old.case.topology held.old interval found.now.name found.now.timer }
    requires left { IsLeftByHandler book.old.case held.old interval
        found.now.name found.now.timer effects }
    ensures asked { let part = found.now.name.part in
        IfOk result (HasAskedOne book.old book.new
        (MayAskFire book.old.case (worker_of held.old) part mark)) }
    ensures marks { OnOk result (book.new.marks ≡ book.old.marks) }
    ensures at_work { OnOk result (IsAtWork book.new (worker_of held.new)) }
    ensures failed { IfErr result (HasFailed book.old book.new) }
    ensures asking { let part = found.now.name.part in
        IfErr result (IsFullAsking (MayAskFire book.old.case (worker_of held.old) part mark)) }
{
    let proposal = Proposal::Fire {
        timer: found.timer,
        mark,
        effects,
    };
    let writing = Writing::Propose {
        proposal: &proposal,
    };
    let written = put(alloc, book, held, interval, &found.name, writing);
    drop(proposal);
    written?;
    Ok(true)
}
