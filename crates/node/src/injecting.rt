//! Lines of injectors that are injected.
ghost use Rattle.std.specs.Prelude.{◌≡◌, ◌<◌, ◌≤◌, ◌^◌, ℕ, All, IfErr, IfOk, OnErr, OnOk, map};
ghost use Rattle.mw_types.specs.declared.TheConstants.{MAX_STAMP};
ghost use Rattle.topology.specs.Shapes.{injectors_of, parts_of};
ghost use Rattle.book.specs.Desks.{HasLooked, KeepsMarks};
ghost use Rattle.node.specs.Answers.{AnswersAsked, FailsAsked, HasGrown, HasKept};
ghost use Rattle.node.specs.Asking.{line_asked};
ghost use Rattle.node.specs.Fits.{Fits};
ghost use Rattle.node.specs.LineSteps.{IsLineNext, IsNextOf, injector_row, line_deliveries, line_held, production_of};
ghost use Rattle.node.specs.Workers.{worker_at};
ghost use Rattle.outbox.specs.Messages.{IsAddressed, messages_from};
ghost use Rattle.outbox.specs.Outboxes.{numbered};

use crate::node::Node;
use crate::outcome::{NodeFault, Outcome};
use book::{Desk, Proposal, Seen, Writing, production_of};
use holdings::Held;
use mw_types::{NoMemory, Record, RowName};
use outbox::{Outgoing, made};
use run_history::Case;
use std::alloc::Global;
use topology::Topology;

impl<N: Seen> Node<N> {
    /// Injects the next line of an injector that it has. It answers `Nothing` exactly where it does
    /// not have the injector's row, or no line is left.
    #[tactic(auto, using(crate::proofs::FitLaws::looked_not, crate::proofs::FitLaws::grown_looked))]
    pub fn inject<D: Desk<Note = N>>(
        &mut self,
        alloc: Global,
        desk: &mut D,
        case: &Case,
        part: u32,
    ) -> Result<Outcome, NodeFault>
        requires fits { Fits case.now (D.view desk.old) self.old }

        ensures fits { Fits case.now (D.view desk.new) self.new }
        ensures answers { let asked = line_asked case.now self.old part in
            IfOk result (AnswersAsked case.now.topology
            (D.view desk.old) (D.view desk.new) asked (worker_at self.old) self.old self.new) }
        ensures number { self.new.number ≡ self.old.number }

        ensures kept { OnErr result (HasKept self.old self.new) }
        ensures looked { OnErr result (HasLooked (D.view desk.old) (D.view desk.new)) }
        ensures fault { let asked = line_asked case.now self.old part in
            IfErr result (FailsAsked (D.view desk.old) (D.view desk.new) asked) }

        ensures grown { HasGrown self.old.held (D.view desk.old) (D.view desk.new) }
        ensures marks { KeepsMarks (D.view desk.old) (D.view desk.new) }
        ensures loan { D.loan desk.new ≡ D.loan desk.old }
        ensures home { D.home desk.new ≡ D.home desk.old }
    {
        match self.next_line(alloc, case, part) {
            Some(line) => {
                let name = Case::injector_row(alloc, part);
                self.inject_line(alloc, desk, case, part, &name, line)
            }
            None => Ok(Outcome::Nothing),
        }
    }

    // The next line of an injector, where its row is held and has one.
    fn next_line(&self, alloc: Global, case: &Case, part: u32) -> Option<u32>
        ensures { IsNextOf case.now self.now part result }
    {
        if case.topology.injectors() <= part {
            return None;
        }
        let name = Case::injector_row(alloc, part);
        self.line_on(case, part, &name)
    }

    // The next line of an injector, whose row has this name, where it is held and has one.
    fn line_on(&self, case: &Case, part: u32, name: &RowName) -> Option<u32>
        requires injector { part < injectors_of case.now.topology }
        requires name { name.now ≡ injector_row part }
        ensures { IsNextOf case.now self.now part result }
    {
        match self.held.get(case.interval_of(name)) {
            Some(held) => line_of(held, case, name),
            None => None,
        }
    }

    // Injects a line, which is the next of an injector's row that is held.
    #[tactic(auto, using(crate::proofs::FitLaws::looked_not, crate::proofs::FitLaws::grown_looked, crate::proofs::FitLaws::fails_memory))]
    fn inject_line<D: Desk<Note = N>>(
        &mut self,
        alloc: Global,
        desk: &mut D,
        case: &Case,
        part: u32,
        name: &RowName,
        line: u32,
    ) -> Result<Outcome, NodeFault>
        requires fits { Fits case.now (D.view desk.old) self.old }
        requires name { name.now ≡ injector_row part }
        requires next { IsLineNext case.now self.old part line }

        ensures fits { Fits case.now (D.view desk.new) self.new }
        ensures answers { let asked = line_asked case.now self.old part in
            IfOk result (AnswersAsked case.now.topology
            (D.view desk.old) (D.view desk.new) asked (worker_at self.old) self.old self.new) }
        ensures number { self.new.number ≡ self.old.number }

        ensures kept { OnErr result (HasKept self.old self.new) }
        ensures looked { OnErr result (HasLooked (D.view desk.old) (D.view desk.new)) }
        ensures fault { let asked = line_asked case.now self.old part in
            IfErr result (FailsAsked (D.view desk.old) (D.view desk.new) asked) }

        ensures grown { HasGrown self.old.held (D.view desk.old) (D.view desk.new) }
        ensures marks { KeepsMarks (D.view desk.old) (D.view desk.new) }
        ensures loan { D.loan desk.new ≡ D.loan desk.old }
        ensures home { D.home desk.new ≡ D.home desk.old }
    {
        let item = case.line_record(alloc, part, line)?;
        let made = made_of(alloc, &case.topology, name, item)?;
        let interval = case.interval_of(name);
        let proposal = Proposal::Inject { line };
        let writing = Writing::Propose {
            proposal: &proposal,
        };
        let injected = self.put_on(alloc, desk, case, interval, name, writing, made);
        drop(proposal);
        injected
    }
}

// The next line of an injector's row as it is held, where there is one.
fn line_of(held: &Held, case: &Case, name: &RowName) -> Option<u32>
    requires injector { name.now.part < injectors_of case.now.topology }
    ensures { result ≡ line_held case.now held.now name.now }
{
    let line = held.cursor(name);
    if line < case.lines(name.part) {
        Some(line)
    } else {
        None
    }
}

// What the record of a line becomes, under the commit number 0: the entry's comes later.
fn made_of(
    alloc: Global,
    topology: &Topology,
    name: &RowName,
    item: Record,
) -> Result<Vec<Outgoing>, NoMemory>
    requires part { name.now.part < parts_of topology.now }
    requires stamp { item.stamp ≤ MAX_STAMP }
    ensures made { IfOk result (λ made. (commit : ℕ) → map (numbered commit) made.items
        ≡ messages_from name.now (line_deliveries topology.now name.now.part item commit)) }
    ensures addressed { OnOk result ((commit : ℕ) → commit < 2 ^ 32 →
        All (IsAddressed topology.now) (messages_from name.now
        (line_deliveries topology.now name.now.part item commit))) }
{
    let late = item.late;
    let production = production_of(item);
    made(alloc, topology, name, &[production], late)
}
