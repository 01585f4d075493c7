//! What each step of a script keeps, and so each script.
ghost use Rattle.std.specs.Prelude.{List, None, Option, Some, true, ℕ, ◌<◌, ◌≡◌, length};
ghost use Rattle.mw_types.specs.declared.entry.Entry.{Entry};
ghost use Rattle.mw_types.specs.declared.identity.RecordId.{RecordId};
ghost use Rattle.mw_types.specs.declared.identity.RowName.{RowName};
ghost use Rattle.topology.specs.Folding.{RoutesView};
ghost use Rattle.run_history.specs.Cases.{CaseShape};
ghost use Rattle.run_history.specs.Fences.{Begins};
ghost use Rattle.node.specs.declared.outcome.Outcome.TheVariants as outcomes;
ghost use Rattle.outbox.specs.declared.outgoing.Outgoing.{Outgoing};
ghost use Rattle.outbox.specs.declared.outgoing.Outgoing.TheVariants as outgoing;
ghost use Rattle.weak_relay.specs.Relays.{holds};
ghost use Rattle.world.specs.scripts.Acts.{act, world_after, world_then};
ghost use Rattle.world.specs.scripts.Keeping.{
  AppendsAtMostOne,
  AreApart,
  AreClaimed,
  KeepsWorld,
  KeepsForm,
  KeepsMessages,
  WritesNothing,
};
ghost use Rattle.world.specs.scripts.Worlds.{World, held_by, in_flight, world_on};
ghost use Rattle.plans.specs.declared.step.Step.{Step};
ghost use Rattle.plans.specs.declared.step.Step.TheVariants as steps;

/// A step appends at most one entry to the history, and keeps what was there.
pub fn steps_append_at_most_one_entry()
    ensures one { (case : CaseShape) (world : World) (step : Step) →
        AppendsAtMostOne world (world_then case world step) }
    ensures grown { (case : CaseShape) (world : World) (step : Step) →
        Begins world.history (world_then case world step).history }
{}

/// There are as many workers after a step as before it, and as many marks.
pub fn steps_keep_workers_and_marks()
    ensures form { (case : CaseShape) (world : World) (step : Step) →
        KeepsForm world (world_then case world step) }
{}

/// Messages are only added or taken away, and a message's number is never used again.
pub fn messages_keep_their_numbers()
    ensures messages { (case : CaseShape) (world : World) (step : Step) →
        KeepsMessages world.flight (world_then case world step).flight }

    // A message that is gone stays gone.
    ensures gone { (old new : List (Option Outgoing)) (message : ℕ) → KeepsMessages old new →
        message < length old → in_flight old message ≡ None → in_flight new message ≡ None }
{}

/// Each lease is of a claim of its worker, so no two workers have one sequencer.
pub fn leases_are_claims_of_their_workers()
    ensures claimed { (case : CaseShape) (world : World) (step : Step) →
        AreClaimed world → AreClaimed (world_then case world step) }
    ensures apart { (world : World) → AreClaimed world → AreApart world }
{}

/// A relay writes nothing, and changes no worker.
pub fn relays_write_nothing()
    ensures relay { (case : CaseShape) (world : World) (number message : ℕ) →
        WritesNothing world (world_then case world (steps.Relay number message)) }
    ensures forget { (case : CaseShape) (world : World) (number : ℕ) →
        WritesNothing world (world_then case world (steps.Forget number)) }
{}

/// What passes a relay goes on as it came, with the same id and the same bytes.
pub fn relays_send_what_they_took()
    ensures same { (case : CaseShape) (world : World) (number message : ℕ) →
        (act case world (steps.Relay number message)).0 ≡ outcomes.Sent 1 →
        in_flight (world_then case world (steps.Relay number message)).flight
        (length world.flight)
        ≡ in_flight world.flight message }

    // Word of a record passes only where the relay holds the record's id.
    ensures held { (case : CaseShape) (world : World) (number message : ℕ) (to : RowName)
        (id : RecordId) → in_flight world.flight message ≡ Some (outgoing.Ack to id) →
        (act case world (steps.Relay number message)).0 ≡ outcomes.Sent 1 →
        holds (held_by world number) id ≡ true }
{}

/// A relay makes no message, and so no acknowledgement: what is in flight then was in flight before.
pub fn relays_make_no_message()
    ensures none { (case : CaseShape) (world : World) (number message other : ℕ)
        (made : Outgoing) →
        in_flight (world_then case world (steps.Relay number message)).flight other
        ≡ Some made →
        (old : ℕ) × (in_flight world.flight old ≡ Some made) }
{}

/// What each step keeps a script keeps.
pub fn scripts_keep_what_steps_keep()
    ensures kept { (case : CaseShape) (world : World) (script : List Step) →
        KeepsWorld world (world_after case world script) }

    // Before a script no worker has a lease, so after it each lease is a claim of its worker.
    ensures claimed { (case : CaseShape) (routes : RoutesView) (history : List Entry)
        (marks : List ℕ) (script : List Step) →
        AreClaimed (world_after case (world_on routes history marks) script) }
    ensures sixteen { (case : CaseShape) (routes : RoutesView) (history : List Entry)
        (marks : List ℕ) (script : List Step) →
        length (world_after case (world_on routes history marks) script).workers ≡ 16 }
{}
