//! What a drain does where no timer is due: it injects a line.
ghost use Rattle.std.specs.Prelude.{◌≡◌, ◌<◌, ℕ, IfErr, IfOk, OnOk, None, Some, true, false};
ghost use Rattle.topology.specs.Shapes.{injectors_of};
ghost use Rattle.node.specs.Asking.{line_asked};
ghost use Rattle.world.specs.drains.Turns.{HasAsked, HasFailed, HasTurned, IsAtWork, IsBestLine, IsFullUnended, IsInjected, IsQuiet, IsSettled, WhereTold, cursor_at, lesser_line, line_at, worker_of};
ghost use Rattle.node.specs.LineSteps.{injector_row};

use crate::drains::writes::put;
use book::{Book, Proposal, Writing};
use holdings::Holdings;
use mw_types::RowName;
use node::NodeFault;
use row_keeper::Keeper;
use run_history::Case;
use std::alloc::Global;

// Injects the next line of the injector that has injected the fewest, of those that have one left.
pub(crate) fn inject_next<'a, K: Keeper>(
    alloc: Global,
    book: &mut Book<'a, K>,
    held: &mut Holdings,
) -> Result<bool, NodeFault>
    requires at_work { IsAtWork book.old (worker_of held.old) }
    requires settled { IsSettled book.old.case book.old.history }
    requires quiet { WhereTold book.old (IsQuiet book.old.case book.old.history) }
    ensures turned { IfOk result (HasTurned book.old book.new) }
    ensures at_work { OnOk result (IsAtWork book.new (worker_of held.new)) }
    ensures injected { IfOk result (λ more. more ≡ false →
        WhereTold book.old (IsInjected book.old.case book.old.history)) }
    ensures failed { IfErr result (HasFailed book.old book.new) }
    ensures unended { IfErr result (IsFullUnended book.old) }
{
    match next_line(alloc, book.case(), held) {
        Some((line, part)) => inject(alloc, book, held, line, part),
        None => Ok(false),
    }
}

// Injects a line, which is the next of an injector.
fn inject<'a, K: Keeper>(
    alloc: Global,
    book: &mut Book<'a, K>,
    held: &mut Holdings,
    line: u32,
    part: u32,
) -> Result<bool, NodeFault>
    requires at_work { IsAtWork book.old (worker_of held.old) }
    requires injector { part < injectors_of book.old.case.topology }
    requires next { line_at book.old.case (worker_of held.old) part ≡ Some (line, part) }
    ensures asked { IfOk result
        (HasAsked book.old book.new (line_asked book.old.case (worker_of held.old) part)) }
    ensures at_work { OnOk result (IsAtWork book.new (worker_of held.new)) }
    ensures failed { IfErr result (HasFailed book.old book.new) }
{
    let name = Case::injector_row(alloc, part);
    let injected = inject_on(alloc, book, held, &name, line);
    drop(name);
    injected?;
    Ok(true)
}

// Injects a line, which is the next of an injector whose row has this name.
fn inject_on<'a, K: Keeper>(
    alloc: Global,
    book: &mut Book<'a, K>,
    held: &mut Holdings,
    name: &RowName,
    line: u32,
) -> Result<(), NodeFault>
    requires at_work { IsAtWork book.old (worker_of held.old) }
    requires injector { name.now.part < injectors_of book.old.case.topology }
    requires name { name.now ≡ injector_row name.now.part }
    requires next { let part = name.now.part in
        line_at book.old.case (worker_of held.old) part ≡ Some (line, part) }
    ensures asked { let asked = line_asked book.old.case (worker_of held.old) name.now.part in
        OnOk result (HasAsked book.old book.new asked true) }
    ensures at_work { OnOk result (IsAtWork book.new (worker_of held.new)) }
    ensures failed { IfErr result (HasFailed book.old book.new) }
{
    let case = book.case();
    // Every topology has its injectors among its parts.
    let _parts = case.topology.parts();
    let interval = case.interval_of(name);
    let proposal = Proposal::Inject { line };
    let writing = Writing::Propose {
        proposal: &proposal,
    };
    let written = put(alloc, book, held, interval, name, writing);
    drop(proposal);
    written
}

// The least count of lines that were injected, of the injectors that have one left, and the
// injector.
fn next_line(alloc: Global, case: &Case, held: &Holdings) -> Option<(u32, u32)>
    ensures { IsBestLine case.now (worker_of held.now) (injectors_of case.now.topology) result }
{
    let mut best = None;
    for part in 0..case.topology.injectors() {
        best = lesser(best, line(alloc, case, held, part));
    }
    best
}

// How many lines an injector has injected, with its part, where it has one left.
fn line(alloc: Global, case: &Case, held: &Holdings, part: u32) -> Option<(u32, u32)>
    requires injector { part < injectors_of case.now.topology }
    ensures { result ≡ line_at case.now (worker_of held.now) part }
{
    let lines = cursor(alloc, case, held, part);
    if lines < case.lines(part) {
        Some((lines, part))
    } else {
        None
    }
}

// Of two counts of lines, where they are there, the lesser, and of equal ones the first.
fn lesser(one: Option<(u32, u32)>, other: Option<(u32, u32)>) -> Option<(u32, u32)>
    ensures { result ≡ lesser_line one other }
{
    match (one, other) {
        (Some((a, p)), Some((b, q))) => { if a <= b { Some((a, p)) } else { Some((b, q)) } }
        (None, found) => found,
        (found, None) => found,
    }
}

// How many lines an injector has injected, by its row.
fn cursor(alloc: Global, case: &Case, held: &Holdings, part: u32) -> u32
    requires injector { part < injectors_of case.now.topology }
    ensures { result ≡ cursor_at case.now (worker_of held.now) part }
{
    // Every topology has its injectors among its parts.
    let _parts = case.topology.parts();
    let name = Case::injector_row(alloc, part);
    match held.get(case.interval_of(&name)) {
        Some(here) => here.cursor(&name),
        None => 0,
    }
}
