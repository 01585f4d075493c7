//! What was emitted, written as soon as it is committed.
ghost use Rattle.std.specs.Prelude.{◌≡◌, ◌<◌, ◌^◌, ◌++◌, ◌+◌, List, false, true, length, All, IfOk, OnErr, OnOk};
ghost use Rattle.mw_types.specs.Causes.{HasCause};
ghost use Rattle.topology.specs.Shapes.{Shape as Form, parts_of};
ghost use Rattle.row_parts.specs.Contents.{IsId};
ghost use Rattle.mw_types.specs.declared.entry.Entry.{Entry as Happened};
ghost use Rattle.run_history.specs.Printing.{IsPrintable};
ghost use Rattle.mw_ports.specs.Sinks.{AppendsPrefix};
ghost use Rattle.std.specs.Io.KnownBytes.{append_known};
ghost use Rattle.live_outlet.specs.Outlets.{IsPumpedFrom, AreLive, PutsPart, WritesPart, WritesTo, StopsAt, piece_of, owed, owes_behind, live_lines};

use crate::live::live_line;
use mw_ports::{Sink, SinkFault, write_all};
use mw_types::{Emission, EmissionList, NoMemory, Seq};
use run_history::{Case, Emitter, History};
use std::alloc::Global;
use std::marker::Model;

/// What writes the live lines of one run's history, each as soon as its entry is there.
#[derive(Drop)]
pub struct Outlet {
    // Of how many entries the lines are out.
    place: u64,
    // Whether a line may stand unfinished, so that the next piece begins with an LF.
    owes: bool,
    // What is remembered of the entries that were followed.
    emitter: Emitter,
    // Whether the next entry was followed too.
    ready: bool,
    // What that one emits.
    waiting: EmissionList,
}

impl Model for Outlet {
    ghost use Rattle.live_outlet.specs.Outlets.{OutletView};

    ghost Value = { OutletView };

    ghost view = { λ o. record {
      place = o.place;
      owes = o.owes;
      followed = o.emitter;
      ready = o.ready;
      waiting = o.waiting;
    } };
}

impl Outlet {
    /// An outlet that has written nothing, which takes no memory.
    pub fn new(alloc: Global) -> Outlet
        ensures place { result.place ≡ 0 }
        ensures owes { result.owes ≡ false }
        ensures extends { (shape : Form) (history : List Happened) →
            IsPumpedFrom shape result history }
    {
        Outlet {
            place: 0,
            owes: false,
            emitter: Emitter::new(alloc),
            ready: false,
            waiting: Seq::new(alloc),
        }
    }

    /// Of how many entries the lines are out.
    pub fn place(&self) -> u64
        ensures { result ≡ self.now.place }
    {
        self.place
    }

    /// Takes the outlet back to the beginning, as a crash of its worker does: all lines are written
    /// again, behind an LF where one is owed.
    pub fn back(&mut self, alloc: Global)
        ensures place { self.new.place ≡ 0 }
        ensures owes { self.new.owes ≡ self.old.owes }
        ensures extends { (shape : Form) (history : List Happened) →
            IsPumpedFrom shape self.new history }
    {
        self.place = 0;
        self.emitter = Emitter::new(alloc);
        self.ready = false;
    }

    /// Writes the live lines of the entries from its place on, and answers its new place, the
    /// history's length. After a fault the lines of all entries before its place are out, and the
    /// next pump that writes a line begins with an LF. It can be pumped again from this history.
    pub fn pump<O: Sink>(
        &mut self,
        alloc: Global,
        case: &Case,
        history: &History,
        out: &mut O,
    ) -> Result<u64, SinkFault>
        requires printable { IsPrintable case.now.topology history.now }
        requires extends { IsPumpedFrom case.now.topology self.old history.now }

        ensures all { IfOk result (λ place. place ≡ length history.now) }
        ensures place { OnOk result (self.new.place ≡ length history.now) }
        ensures written { OnOk result (WritesTo case.now.topology history.now
            self.old self.new (O.text out.old) (O.text out.new)) }
        ensures stopped { OnErr result (StopsAt case.now.topology history.now
            self.old self.new (O.text out.old) (O.text out.new)) }
        ensures extends { IsPumpedFrom case.now.topology self.new history.now }
        ensures cause { HasCause (O.faults out.old) (O.faults out.new) result SinkFault.Failed }
    {
        while self.place < history.len() as u64 {
            match self.put(alloc, case, history, out) {
                Ok(()) => {}
                Err(why) => {
                    self.owes = true;
                    return Err(why);
                }
            }
        }
        Ok(self.place)
    }

    // Writes the lines of the next entry.
    fn put<O: Sink>(
        &mut self,
        alloc: Global,
        case: &Case,
        history: &History,
        out: &mut O,
    ) -> Result<(), SinkFault>
        requires printable { IsPrintable case.now.topology history.now }
        requires extends { IsPumpedFrom case.now.topology self.old history.now }
        requires next { self.old.place < length history.now }

        ensures place { OnOk result (self.new.place ≡ self.old.place + 1) }
        ensures written { OnOk result (WritesTo case.now.topology history.now
            self.old self.new (O.text out.old) (O.text out.new)) }
        ensures stays { OnErr result (self.new.place ≡ self.old.place) }
        ensures owes { OnErr result (self.new.owes ≡ self.old.owes) }
        ensures part { OnErr result (PutsPart case.now.topology history.now
            self.old (O.text out.old) (O.text out.new)) }
        ensures extends { IsPumpedFrom case.now.topology self.new history.now }
        ensures cause { HasCause (O.faults out.old) (O.faults out.new) result SinkFault.Failed }
    {
        self.follow(alloc, case, history)?;
        self.write_next(alloc, case, out)?;
        self.pass();
        Ok(())
    }

    // Writes the lines of the next entry, which was followed.
    fn write_next<O: Sink>(
        &mut self,
        alloc: Global,
        case: &Case,
        out: &mut O,
    ) -> Result<(), SinkFault>
        requires parts { All (λ e. e.part < parts_of case.now.topology) self.old.waiting }
        requires ids { All (λ e. IsId e.id) self.old.waiting }
        ensures place { self.new.place ≡ self.old.place }
        ensures ready { self.new.ready ≡ self.old.ready }
        ensures owes { OnOk result (self.new.owes ≡ owes_behind self.old.owes
            (live_lines case.now.topology self.old.waiting)) }
        ensures extends { (history : List Happened) →
            IsPumpedFrom case.now.topology self.old history →
            IsPumpedFrom case.now.topology self.new history }
        ensures stays { OnErr result (self.new.owes ≡ self.old.owes) }
        ensures written { OnOk result (O.text out.new ≡ append_known (O.text out.old)
            (piece_of self.old.owes (live_lines case.now.topology self.old.waiting))) }
        ensures live { OnOk result (AreLive case.now.topology self.old.waiting) }
        ensures part { OnErr result (WritesPart case.now.topology self.old.owes self.old.waiting
            (O.text out.old) (O.text out.new)) }
        ensures cause { HasCause (O.faults out.old) (O.faults out.new) result SinkFault.Failed }
    {
        if self.waiting.is_empty() {
            return Ok(());
        }
        write_lines(alloc, case, self.waiting.as_slice(), self.owes, out)?;
        self.owes = false;
        Ok(())
    }

    // Goes past the next entry, whose lines are out.
    fn pass(&mut self)
        requires fits { self.old.place < 2 ^ 32 }
        ensures place { self.new.place ≡ self.old.place + 1 }
        ensures owes { self.new.owes ≡ self.old.owes }
        ensures extends { (shape : Form) (history : List Happened) →
            IsPumpedFrom shape self.old history → self.old.ready ≡ true →
            IsPumpedFrom shape self.new history }
    {
        self.place += 1;
        self.ready = false;
    }

    // Follows the next entry, unless it was followed.
    fn follow(&mut self, alloc: Global, case: &Case, history: &History) -> Result<(), NoMemory>
        requires printable { IsPrintable case.now.topology history.now }
        requires extends { IsPumpedFrom case.now.topology self.old history.now }
        requires next { self.old.place < length history.now }
        ensures place { self.new.place ≡ self.old.place }
        ensures owes { self.new.owes ≡ self.old.owes }
        ensures ready { OnOk result (self.new.ready ≡ true) }
        ensures extends { IsPumpedFrom case.now.topology self.new history.now }
    {
        if !self.ready {
            let entry = history.at(self.place as usize);
            let mut waiting = Seq::new(alloc);
            self.emitter
                .follow(alloc, &case.topology, &entry, self.place, &mut waiting)?;
            self.waiting = waiting;
            self.ready = true;
        }
        Ok(())
    }
}

// Writes the live lines of some emissions at one go, behind an LF where one is owed.
fn write_lines<O: Sink>(
    alloc: Global,
    case: &Case,
    emissions: &[Emission],
    owes: bool,
    out: &mut O,
) -> Result<(), SinkFault>
    requires some { 0 < length emissions.now }
    requires parts { All (λ e. e.part < parts_of case.now.topology) emissions.now }
    requires ids { All (λ e. IsId e.id) emissions.now }
    ensures written { OnOk result (O.text out.new ≡ append_known (O.text out.old)
        (piece_of owes (live_lines case.now.topology emissions.now))) }
    ensures live { OnOk result (AreLive case.now.topology emissions.now) }
    ensures part { OnErr result
        (WritesPart case.now.topology owes emissions.now (O.text out.old) (O.text out.new)) }
    ensures cause { HasCause (O.faults out.old) (O.faults out.new) result SinkFault.Failed }
{
    let piece = piece(alloc, case, emissions, owes)?;
    write_all(out, piece.as_slice())
}

// The live lines of some emissions, behind an LF where one is owed.
fn piece(
    alloc: Global,
    case: &Case,
    emissions: &[Emission],
    owes: bool,
) -> Result<Vec<u8>, NoMemory>
    requires some { 0 < length emissions.now }
    requires parts { All (λ e. e.part < parts_of case.now.topology) emissions.now }
    requires ids { All (λ e. IsId e.id) emissions.now }
    ensures piece { IfOk result (λ piece. piece.items
        ≡ piece_of owes (live_lines case.now.topology emissions.now)) }
    ensures live { OnOk result (AreLive case.now.topology emissions.now) }
{
    let mut piece = owed(alloc, owes)?;
    append_lines(alloc, case, emissions, &mut piece)?;
    Ok(piece)
}

// An LF, where one is owed.
fn owed(alloc: Global, owes: bool) -> Result<Vec<u8>, NoMemory>
    ensures { IfOk result (λ piece. piece.items ≡ owed owes) }
{
    let mut piece = Vec::new(alloc);
    if owes {
        piece.push(b'\n')?;
        return Ok(piece);
    }
    Ok(piece)
}

// Appends the live lines of some emissions.
fn append_lines(
    alloc: Global,
    case: &Case,
    emissions: &[Emission],
    piece: &mut Vec<u8>,
) -> Result<(), NoMemory>
    requires parts { All (λ e. e.part < parts_of case.now.topology) emissions.now }
    requires ids { All (λ e. IsId e.id) emissions.now }
    ensures appended { OnOk result (piece.new.items
        ≡ piece.old.items ++ live_lines case.now.topology emissions.now) }
    ensures live { OnOk result (AreLive case.now.topology emissions.now) }
{
    for emission in emissions {
        let line = live_line(alloc, case, emission)?;
        piece.extend_from_slice(line.as_slice())?;
    }
    Ok(())
}
