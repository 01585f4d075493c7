//! Timers that fire.
ghost use Rattle.std.specs.Prelude.{◌≡◌, ◌<◌, IfErr, IfOk, None, OnErr, Some, length};
ghost use Rattle.std.specs.Ordering.{is_lt};
ghost use Rattle.run_history.specs.Cases.{intervals_of};
ghost use Rattle.book.specs.Desking.{IsDueKnown};
ghost use Rattle.book.specs.Desks.{HasLooked, KeepsMarks};
ghost use Rattle.node.specs.Answers.{AnswersFire, AnswersSome, FailsFire, FailsSome, HasGrown, HasKept};
ghost use Rattle.node.specs.Fits.{Fits};
ghost use Rattle.holdings.specs.Timers.{due_cmp, pair_of};
ghost use Rattle.node.specs.Asking.{IsNextTimer, MayAskFire};
ghost use Rattle.node.specs.FireSteps.{AreAllWithin, IsFirstIn, IsLeftByHandler, IsLeastTimerBelow, IsSetAt, IsTimerToFire, due_under, earlier_timer, lesser_timer};
ghost use Rattle.outbox.specs.Messages.{IsComputation};
ghost use Rattle.node.specs.Workers.{NodeView};
ghost use Rattle.node.specs.Works.{IsWorkOf};

use crate::handling::fired;
use crate::known_marks::least_known;
use crate::node::Node;
use crate::outcome::{NodeFault, Outcome};
use book::{Desk, Proposal, Seen, Writing};
use computations::Computation;
use holdings::{Holdings, RowTimer};
use mw_types::{Effects, NoMemory};
use outbox::made_by;
use run_history::Case;
use std::alloc::Global;

impl<N: Seen> Node<N> {
    /// Fires the next timer of a part, by time, tag and key, where it is due by the marks that the
    /// desk knows. It answers `Nothing` exactly where a work is prepared, no timer of the part is
    /// set in the rows that it has, or the first one's time is above the least known mark of the
    /// part.
    #[tactic(auto, using(crate::proofs::FitLaws::looked_not, crate::proofs::FitLaws::grown_looked))]
    pub fn fire<D: Desk<Note = N>, C: Computation>(
        &mut self,
        alloc: Global,
        desk: &mut D,
        case: &Case,
        work: &C,
        part: u32,
    ) -> Result<Outcome, NodeFault>
        requires fits { Fits case.now (D.view desk.old) self.old }
        requires work { IsWorkOf case.now.topology (C.does work.now) }
        requires part { IsComputation case.now.topology part }

        ensures fits { Fits case.now (D.view desk.new) self.new }
        ensures answers { IfOk result (AnswersFire case.now
            (D.view desk.old) (D.view desk.new) part self.old self.new) }
        ensures number { self.new.number ≡ self.old.number }

        ensures kept { OnErr result (HasKept self.old self.new) }
        ensures looked { OnErr result (HasLooked (D.view desk.old) (D.view desk.new)) }
        ensures fault { IfErr result (FailsFire case.now
            (D.view desk.old) (D.view desk.new) part self.old) }

        ensures grown { HasGrown self.old.held (D.view desk.old) (D.view desk.new) }
        ensures marks { KeepsMarks (D.view desk.old) (D.view desk.new) }
        ensures loan { D.loan desk.new ≡ D.loan desk.old }
        ensures home { D.home desk.new ≡ D.home desk.old }
    {
        desk.sound();
        let mark = least_known(desk, case, part);
        desk.sound();
        match self.to_fire(alloc, case, part, mark)? {
            Some(found) => {
                let fired = self.fire_one(alloc, desk, case, work, &found, mark);
                desk.sound();
                fired
            }
            None => Ok(Outcome::Nothing),
        }
    }

    // The next timer of a part, where it is due under a mark and nothing is prepared.
    fn to_fire(
        &mut self,
        alloc: Global,
        case: &Case,
        part: u32,
        mark: u64,
    ) -> Result<Option<RowTimer>, NoMemory>
        requires within { AreAllWithin case.now.topology self.old.held }
        ensures found { IfOk result (IsTimerToFire case.now.topology self.old part mark) }
        ensures same { self.new ≡ self.old }
    {
        if self.prepared.is_some() {
            return Ok(None);
        }
        first_due(&mut self.held, alloc, case, part, mark)
    }

    // Fires a timer that is due: its handler is called, and what it leaves is written.
    #[tactic(auto, using(crate::proofs::FitLaws::looked_not, crate::proofs::FitLaws::grown_looked))]
    fn fire_one<D: Desk<Note = N>, C: Computation>(
        &mut self,
        alloc: Global,
        desk: &mut D,
        case: &Case,
        work: &C,
        found: &RowTimer,
        mark: u64,
    ) -> Result<Outcome, NodeFault>
        requires fits { Fits case.now (D.view desk.old) self.old }
        requires work { IsWorkOf case.now.topology (C.does work.now) }
        requires part { IsComputation case.now.topology found.now.name.part }
        requires next { IsNextTimer case.now.topology self.old found.now.name.part mark
            found.now.name found.now.timer }
        requires known { IsDueKnown (D.view desk.old) found.now.name.part
            found.now.timer.time mark }

        ensures fits { Fits case.now (D.view desk.new) self.new }
        ensures answers { IfOk result (AnswersSome case.now.topology
            (D.view desk.old) (D.view desk.new)
            (MayAskFire case.now self.old found.now.name.part mark) self.old self.new) }
        ensures number { self.new.number ≡ self.old.number }

        ensures kept { OnErr result (HasKept self.old self.new) }
        ensures looked { OnErr result (HasLooked (D.view desk.old) (D.view desk.new)) }
        ensures fault { IfErr result (FailsSome (D.view desk.old) (D.view desk.new)
            (MayAskFire case.now self.old found.now.name.part mark)) }

        ensures grown { HasGrown self.old.held (D.view desk.old) (D.view desk.new) }
        ensures marks { KeepsMarks (D.view desk.old) (D.view desk.new) }
        ensures loan { D.loan desk.new ≡ D.loan desk.old }
        ensures home { D.home desk.new ≡ D.home desk.old }
    {
        desk.sound();
        let interval = case.interval_of(&found.name);
        let effects = effects_of(&self.held, alloc, case, work, interval, found)?;
        let timer = found.timer;
        let made = match made_by(alloc, case, &found.name, &effects, timer.late) {
            Ok(made) => made,
            Err(NoMemory) => {
                drop(effects);
                return Err(NodeFault::NoMemory);
            }
        };
        let proposal = Proposal::Fire {
            timer,
            mark,
            effects,
        };
        let writing = Writing::Propose {
            proposal: &proposal,
        };
        let fired = self.put_on(alloc, desk, case, interval, &found.name, writing, made);
        drop(proposal);
        fired
    }
}

/// What a handler leaves of a timer of a row that is held of an interval, for a caller that then
/// writes itself that the timer fired. It fails for lack of memory alone.
pub fn effects_of<C: Computation>(
    held: &Holdings,
    alloc: Global,
    case: &Case,
    work: &C,
    interval: u32,
    found: &RowTimer,
) -> Result<Effects, NoMemory>
    requires work { IsWorkOf case.now.topology (C.does work.now) }
    requires set { IsSetAt case.now.topology held.now interval found.now.name found.now.timer }
    ensures does { IfOk result
        (IsLeftByHandler case.now held.now interval found.now.name found.now.timer) }
{
    let row = held.get(interval).unwrap().row(&found.name).unwrap();
    fired(alloc, work, case, &found.name, row, &found.timer)
}

/// The next timer of a part, by time, tag and key, of the rows that are held, where it is due under a
/// mark in whole microseconds: what a caller that holds rows fires next. None comes where no row has
/// a timer, and where the first is set for a time above the mark. It fails for lack of memory alone.
pub fn first_due(
    held: &mut Holdings,
    alloc: Global,
    case: &Case,
    part: u32,
    mark: u64,
) -> Result<Option<RowTimer>, NoMemory>
    requires within { AreAllWithin case.now.topology held.old }

    // It is what each worker may fire that holds these rows and has nothing prepared.
    ensures found { (node : NodeView) → node.held ≡ held.old → node.prepared ≡ None →
        IfOk result (IsTimerToFire case.now.topology node part mark) }
    ensures same { held.new ≡ held.old }
{
    let first = first_of_part(held, alloc, case, part)?;
    Ok(due(first, mark))
}

// The first timer of a part, of the intervals that are held.
fn first_of_part(
    held: &mut Holdings,
    alloc: Global,
    case: &Case,
    part: u32,
) -> Result<Option<RowTimer>, NoMemory>
    ensures first { let intervals = intervals_of case.now.topology in
        IfOk result (IsLeastTimerBelow intervals held.old part (length intervals)) }
    ensures same { held.new ≡ held.old }
{
    let mut first = None;
    for interval in 0..case.interval_count() {
        let counts = case.bounds(interval).part == part;
        let here = first_in(held, alloc, interval, counts)?;
        first = earlier(first, here);
    }
    Ok(first)
}

// The first timer of an interval, if that one counts and is held.
fn first_in(
    held: &mut Holdings,
    alloc: Global,
    interval: u32,
    counts: bool,
) -> Result<Option<RowTimer>, NoMemory>
    ensures first { IfOk result (IsFirstIn counts held.old interval) }
    ensures same { held.new ≡ held.old }
{
    if !counts {
        return Ok(None);
    }
    if held.get(interval).is_none() {
        return Ok(None);
    }
    held.first_timer(alloc, interval)
}

// A timer, where it is due under a mark.
fn due(first: Option<RowTimer>, mark: u64) -> Option<RowTimer>
    ensures { result ≡ due_under mark first }
{
    match first {
        Some(found) => {
            if found.timer.time <= mark {
                Some(found)
            } else {
                None
            }
        }
        None => None,
    }
}

// Of two timers, where they are there, the one that is before.
fn earlier(one: Option<RowTimer>, other: Option<RowTimer>) -> Option<RowTimer>
    ensures { result ≡ earlier_timer one other }
{
    match other {
        Some(found) => earlier_of(one, found),
        None => one,
    }
}

// Of a timer, where it is there, and another the one that is before.
fn earlier_of(one: Option<RowTimer>, other: RowTimer) -> Option<RowTimer>
    ensures { result ≡ earlier_timer one (Some other) }
{
    match one {
        Some(found) => Some(lesser(found, other)),
        None => Some(other),
    }
}

// Of two timers the one that is before.
fn lesser(one: RowTimer, other: RowTimer) -> RowTimer
    ensures { result ≡ lesser_timer one other }
{
    if is_before(&other, &one) { other } else { one }
}

// Whether a timer is before another, by time, tag and the name of its row.
fn is_before(a: &RowTimer, b: &RowTimer) -> bool
    ensures { result ≡ is_lt (due_cmp (pair_of a.now) (pair_of b.now)) }
{
    let times = a.timer.time.cmp(&b.timer.time);
    times
        .then(a.timer.tag.cmp(&b.timer.tag))
        .then(a.name.cmp(&b.name))
        .is_lt()
}
