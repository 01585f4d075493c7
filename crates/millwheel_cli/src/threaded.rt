//! The call behind the program.
ghost use Rattle.std.specs.Prelude.{◌≡◌, ◌⊎◌, ◌≤◌, [], None, Some};
ghost use Rattle.std.specs.Option.{is_some};
ghost use Rattle.mw_types.specs.Causes.{Rose};
ghost use Rattle.mw_ports.specs.Shelves.{Files};
ghost use Rattle.row_keeper.specs.Rows.{Rows};
ghost use Rattle.command_line.specs.declared.command.Call.{Call};
ghost use Rattle.command_line.specs.Grammar.{command_of};
ghost use Rattle.millwheel_cli.specs.Reasons.{ShelfSeen, HasReason, IsAnswer, AsksUnkept, IsUnkeptAnswer};
ghost use Rattle.task_runs.specs.Answers.{Left};
ghost use Rattle.millwheel_cli.specs.Answers.{HasDone, HasLeft};

use crate::called::called;
use crate::refusal::status_of_words;
use command_line::read_words;
use mw_ports::{Gate, Shelf, Sink};
use mw_types::Name;
use plain_answer::weak_passes_are_seen_through;
use row_keeper::Keeper;
use std::alloc::Global;
use std::sync::Wait;
use std::thread::Threads;
use task_runs::{Done, Status, unbegun};

/// Does what the words of the command line say, the program's name left out.
///
/// The topology, then the plan, where there is one, and then the event files, one an injector, are
/// read and tried one after the other. Then what comes before the drain is done over the keeper, which must
/// have no rows: the steps of a plan, or in the mode run rounds of workers in two threads, which pass the
/// gate. All that is left is worked off by the caller's own thread, and then the text is written, or with
/// `--live` each result as soon as its entry is there. In the mode plain the files are counted at once, and in
/// the mode collect the live lines of one file are written, each once; both hand the keeper back as it was. A
/// refusal comes at the first step that fails.
///
/// In the mode run it may wait, and what is said of it holds where it returns.
pub fn millwheel<R, S, K, O, G>(
    rt: &R,
    alloc: Global,
    words: &[Name],
    shelf: &mut S,
    keeper: K,
    out: &mut O,
    gate: &G,
) -> Done<K>
where
    R: Threads + Wait + Sync,
    S: Shelf,
    K: Keeper + Send,
    O: Sink,
    G: Gate + Sync,
    // With Ok the files' case was run to its end, the keeper has its rows, and all of its text was
    // written; or it was counted, or the live lines of a file were gathered, or a trace was
    // found to be a lawful run's, and all of that was written. A plain count has the lines of the
    // files' case with plain passes in the place of its weak computations.
    ensures ok { let left : Left = record {
      rows = (K.rows keeper, K.rows result.keeper);
      text = (O.text out.old, O.text out.new);
      history = result.history;
    } in result.status ≡ Status.Ok →
        HasDone (S.files shelf.old) (command_of words.now) left Status.Ok }

    // Each other status has its reason.
    ensures usage { result.status ≡ Status.Usage → command_of words.now ≡ None }
    ensures no_command { command_of words.now ≡ None →
        (result.status ≡ Status.Usage) ⊎ (result.status ≡ Status.NoMemory) }
    ensures reason { let seen : ShelfSeen = record {
      files = S.files shelf.old;
      faults = (S.faults shelf.old, S.faults shelf.new);
      lacks = (S.lacks shelf.old, S.lacks shelf.new);
    } in HasReason seen (command_of words.now) result.status }
    ensures keeper_fault { result.status ≡ Status.KeeperFault →
        Rose (K.faults keeper) (K.faults result.keeper) }
    ensures sink_fault { result.status ≡ Status.SinkFault →
        Rose (O.faults out.old) (O.faults out.new) }
    // Where a contract can see the shelf's files and the keeper's rows they decide the status,
    // unless something fails.
    ensures answer { (held : Files) (rows : Rows) → S.files shelf.old ≡ Some held
        → K.rows keeper ≡ Some rows
        → (Rose (S.faults shelf.old) (S.faults shelf.new) → ⊥)
        → (Rose (K.faults keeper) (K.faults result.keeper) → ⊥)
        → (Rose (O.faults out.old) (O.faults out.new) → ⊥)
        → IsAnswer held rows (command_of words.now) result.history result.status }

    // The plain count needs no keeper, nor do the live lines of a file or an audit: the files alone
    // decide the status, and the keeper is not called.
    ensures unkept_answer { (held : Files) (call : Call) → S.files shelf.old ≡ Some held
        → AsksUnkept (command_of words.now) call
        → (Rose (S.faults shelf.old) (S.faults shelf.new) → ⊥)
        → (Rose (O.faults out.old) (O.faults out.new) → ⊥)
        → IsUnkeptAnswer held call result.status }
    ensures uncalled { (call : Call) → AsksUnkept (command_of words.now) call →
        (result.keeper ≡ keeper) × (result.history ≡ []) }

    // Each status leaves what is said of it, which for HistoryFull, RowDamaged and NotEmpty is also
    // why.
    ensures left { let left : Left = record {
      rows = (K.rows keeper, K.rows result.keeper);
      text = (O.text out.old, O.text out.new);
      history = result.history;
    } in HasLeft (S.files shelf.old) (command_of words.now) left result.status }
    ensures untouched { result.history ≡ [] → K.rows result.keeper ≡ K.rows keeper }
    ensures tells { is_some (K.rows result.keeper) ≡ is_some (K.rows keeper) }

    // The shelf holds what it held, and no count falls.
    ensures files { S.files shelf.new ≡ S.files shelf.old }
    ensures faults_later { S.faults shelf.old ≤ S.faults shelf.new }
    ensures lacks_later { S.lacks shelf.old ≤ S.lacks shelf.new }
    ensures keeper_later { K.faults keeper ≤ K.faults result.keeper }
    ensures out_later { O.faults out.old ≤ O.faults out.new }
{
    weak_passes_are_seen_through();
    match read_words(alloc, words) {
        Ok(command) => {
            let done = called(rt, alloc, &command.call, shelf, keeper, out, gate);
            drop(command);
            done
        }
        Err(refusal) => unbegun(alloc, status_of_words(refusal), keeper),
    }
}
