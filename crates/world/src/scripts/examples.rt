//! Scripts that were worked by hand.
ghost use Rattle.std.specs.Prelude.{None, Some, [], length, take, true, ◌∷◌, ◌≡◌};
ghost use Rattle.world.specs.scripts.Scripts.{
  IsAnswered,
  after_crash,
  after_unsent,
  by_one_worker,
  first_ack,
  first_line,
  first_record,
  flight_of,
  history_of,
  late_copy,
  late_copy_history,
  old_owner,
  old_owner_history,
  overtaken_leases,
  unsent,
  unsent_history,
  unwritten,
  while_prepared,
  without_work,
};
ghost use Rattle.topology.specs.Folding.{folded, is_foldable};
ghost use Rattle.world.specs.scripts.RelayScripts.{
  IsRelayed,
  forgotten,
  relayed_entries,
  relayed_history,
  relayed_shape,
  there_and_back,
};
ghost use Rattle.worked_examples.specs.Drained.{drained_history};
ghost use Rattle.worked_examples.specs.First.{first_case};

/// An owner that is overtaken between its preparation and its write is refused.
///
/// Its record is handled once, by the new owner.
pub fn old_owner_is_stale()
    ensures answers { IsAnswered old_owner }
    ensures history { history_of old_owner ≡ old_owner_history }

    // The stale write leaves the history with its four entries.
    ensures refused { length (history_of (take 7 old_owner)) ≡ 4 }

    // The first message is the record, and the last is its acknowledgement.
    ensures sent { flight_of (take 4 old_owner) ≡ Some first_record ∷ [] }
    ensures acknowledged { flight_of (take 12 old_owner) ≡ None ∷ None ∷ Some first_ack ∷ [] }
{}

/// A copy that comes after its record's acknowledgement, and after a purge, is a duplicate.
pub fn late_copy_is_duplicate()
    ensures answers { IsAnswered late_copy }
    ensures history { history_of late_copy ≡ late_copy_history }
    ensures sent { flight_of (take 8 late_copy) ≡ None ∷ Some first_record ∷ Some first_ack ∷ [] }
{}

/// A record that a worker wrote and did not send is sent by the next owner of the row that made it.
pub fn crash_between_write_and_send()
    ensures answers { IsAnswered unsent }
    ensures history { history_of unsent ≡ unsent_history }
    ensures sent { flight_of (take 7 unsent) ≡ Some first_record ∷ [] }

    // The worker that crashed has nothing left to send.
    ensures after { IsAnswered after_unsent }
{}

/// Of a record that was prepared and not written nothing is left after a crash.
pub fn crash_before_write()
    ensures answers { IsAnswered unwritten }
    ensures history { history_of unwritten ≡ first_line }
    ensures after { IsAnswered after_crash }
{}

/// While a record is prepared other records wait, and lines and acknowledgements do not.
pub fn records_wait_while_one_is_prepared()
    ensures answers { IsAnswered while_prepared }
{}

/// What has nothing to do answers so, and a message for another worker's row stays.
pub fn steps_without_work_change_nothing()
    ensures answers { IsAnswered without_work }
    ensures history { history_of (take 10 without_work) ≡ [] }
{}

/// A worker learns once that a lease was overtaken, whatever it does under it, and then lacks it.
pub fn overtaken_leases_are_lost()
    ensures answers { IsAnswered overtaken_leases }
{}

/// One worker that does all steps of the example writes the drained example.
pub fn one_worker_writes_the_drained_example()
    ensures answers { IsAnswered by_one_worker }
    ensures history { history_of by_one_worker ≡ drained_history }
{}

/// A record passes a relay on its way, and word of it passes the relay on its way back.
pub fn word_passes_back_over_a_relay()
    // The topology may be folded, and what that leaves is the first example's.
    ensures foldable { is_foldable relayed_shape ≡ true }
    ensures folded { folded relayed_shape ≡ first_case.topology }

    ensures answers { IsRelayed there_and_back }
    ensures history { relayed_history there_and_back ≡ relayed_entries }
{}

/// Word of a record is lost where the relay has forgotten the record. It is sent again then, and handled once
/// all the same.
pub fn word_is_lost_where_a_relay_forgot()
    ensures answers { IsRelayed forgotten }
    ensures history { relayed_history forgotten ≡ relayed_entries }
{}
