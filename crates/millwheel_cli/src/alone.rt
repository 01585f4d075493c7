//! The call behind a program that has no threads.
ghost use Rattle.std.specs.Prelude.{◌≡◌, ◌⊎◌, ◌≤◌, [], None, Some};
ghost use Rattle.std.specs.Option.{is_some};
ghost use Rattle.mw_types.specs.Causes.{Rose};
ghost use Rattle.mw_ports.specs.Shelves.{Files};
ghost use Rattle.row_keeper.specs.Rows.{Rows};
ghost use Rattle.command_line.specs.declared.command.Call.{Call};
ghost use Rattle.millwheel_cli.specs.Asked.{alone_of};
ghost use Rattle.millwheel_cli.specs.Reasons.{ShelfSeen, HasReason, IsAnswer, AsksUnkept, IsUnkeptAnswer};
ghost use Rattle.task_runs.specs.Answers.{Left};
ghost use Rattle.millwheel_cli.specs.Answers.{HasDone, HasLeft};

use crate::asked::read_alone;
use crate::called::called_alone;
use crate::refusal::status_of_words;
use mw_ports::{Shelf, Sink};
use mw_types::Name;
use plain_answer::weak_passes_are_seen_through;
use row_keeper::Keeper;
use std::alloc::Global;
use task_runs::{Done, Status, unbegun};

/// Does what the words of the command line say, the program's name left out, for a caller that has no
/// threads: words that ask for a run are Usage. For every other call it does what `millwheel` does, and says
/// the same of it.
pub fn millwheel_alone<S: Shelf, K: Keeper, O: Sink>(
    alloc: Global,
    words: &[Name],
    shelf: &mut S,
    keeper: K,
    out: &mut O,
) -> Done<K>
    // With Ok the files' case was run to its end, the keeper has its rows, and all of its text was
    // written; or it was counted, or the live lines of a file were gathered, or a trace was
    // found to be a lawful run's, and all of that was written. A plain count has the lines of the
    // files' case with plain passes in the place of its weak computations.
    ensures ok { let left : Left = record {
      rows = (K.rows keeper, K.rows result.keeper);
      text = (O.text out.old, O.text out.new);
      history = result.history;
    } in result.status ≡ Status.Ok →
        HasDone (S.files shelf.old) (alone_of words.now) left Status.Ok }

    // Each other status has its reason.
    ensures usage { result.status ≡ Status.Usage → alone_of words.now ≡ None }
    ensures no_command { alone_of words.now ≡ None →
        (result.status ≡ Status.Usage) ⊎ (result.status ≡ Status.NoMemory) }
    ensures reason { let seen : ShelfSeen = record {
      files = S.files shelf.old;
      faults = (S.faults shelf.old, S.faults shelf.new);
      lacks = (S.lacks shelf.old, S.lacks shelf.new);
    } in HasReason seen (alone_of words.now) result.status }
    ensures keeper_fault { result.status ≡ Status.KeeperFault →
        Rose (K.faults keeper) (K.faults result.keeper) }
    ensures sink_fault { result.status ≡ Status.SinkFault →
        Rose (O.faults out.old) (O.faults out.new) }
    // Where a contract can see the shelf's files and the keeper's rows they decide the status,
    // unless something fails.
    ensures answer { (held : Files) (rows : Rows) → S.files shelf.old ≡ Some held
        → K.rows keeper ≡ Some rows
        → (Rose (S.faults shelf.old) (S.faults shelf.new) → ⊥)
        → (Rose (K.faults keeper) (K.faults result.keeper) → ⊥)
        → (Rose (O.faults out.old) (O.faults out.new) → ⊥)
        → IsAnswer held rows (alone_of words.now) result.history result.status }

    // The plain count needs no keeper, nor do the live lines of a file or an audit: the files alone
    // decide the status, and the keeper is not called.
    ensures unkept_answer { (held : Files) (call : Call) → S.files shelf.old ≡ Some held
        → AsksUnkept (alone_of words.now) call
        → (Rose (S.faults shelf.old) (S.faults shelf.new) → ⊥)
        → (Rose (O.faults out.old) (O.faults out.new) → ⊥)
        → IsUnkeptAnswer held call result.status }
    ensures uncalled { (call : Call) → AsksUnkept (alone_of words.now) call →
        (result.keeper ≡ keeper) × (result.history ≡ []) }

    // Each status leaves what is said of it, which for HistoryFull, RowDamaged and NotEmpty is also
    // why.
    ensures left { let left : Left = record {
      rows = (K.rows keeper, K.rows result.keeper);
      text = (O.text out.old, O.text out.new);
      history = result.history;
    } in HasLeft (S.files shelf.old) (alone_of words.now) left result.status }
    ensures untouched { result.history ≡ [] → K.rows result.keeper ≡ K.rows keeper }
    ensures tells { is_some (K.rows result.keeper) ≡ is_some (K.rows keeper) }

    // The shelf holds what it held, and no count falls.
    ensures files { S.files shelf.new ≡ S.files shelf.old }
    ensures faults_later { S.faults shelf.old ≤ S.faults shelf.new }
    ensures lacks_later { S.lacks shelf.old ≤ S.lacks shelf.new }
    ensures keeper_later { K.faults keeper ≤ K.faults result.keeper }
    ensures out_later { O.faults out.old ≤ O.faults out.new }
{
    weak_passes_are_seen_through();
    match read_alone(alloc, words) {
        Ok(command) => {
            let done = called_alone(alloc, &command.call, shelf, keeper, out);
            drop(command);
            done
        }
        Err(refusal) => unbegun(alloc, status_of_words(refusal), keeper),
    }
}
