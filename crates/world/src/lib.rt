//! Scripts and drains: the scripted world, in which sixteen workers claim, crash, send, take and write, and
//! messages come twice or are lost, in any order; the world that does the steps of a script for real; and the
//! order in which one thread works off what is left.
//!
//! A script is a list of steps, which a schedule of `plans` gives one a line. A message passes the relays on
//! its way, each of which stands for a weak computation that folding left out, before a worker takes it. A
//! drain claims each interval, and then writes the one entry that its rules name, until none is left to
//! write. Each law of scripts, of relays, of drains and of rounds of reports is the contract of a function
//! with an empty body. Stands on `node`, on `plans`, on `weak_relay` and on the crates below them. Public
//! contract: where a contract can see the keeper's rows a step of a `World` answers what the scripted world
//! does, and leaves that world, and over every keeper it appends at most one entry, and an answer that names
//! a number has its cause; each history that a script writes is fenced, and a copy of a record is a duplicate
//! exactly where its record was handled; `drain` returns over every keeper, and where a contract can see the
//! keeper's rows it writes exactly the entries of its order, each by a `drain_turn`, and after Ok none is
//! left.
//! Definitions, in `specs/scripts`: `Worlds.antt` and `Acts.antt`, what the scripted world is and what a step
//! does; `Keeping.antt` and `Copies.antt`, what the laws say; `Scripts.antt` and `RelayScripts.antt`, the
//! worked scripts; `WorldStates.antt` and `Stepping.antt`, what it means that steps are done for real. In
//! `specs/drains`: `Drains.antt`, what a drain writes; `DrainTurns.antt`, when one is under way;
//! `ReportRounds.antt`, a round of reports. In `specs`, of both: `Replays.antt`, which histories a script and
//! the drain after it leave; `WorldDrains.antt`, when a drain of a world is under way.
#![tactic(auto)]

mod drains;
mod scripts;
mod world_drains;

pub use drains::drain_examples::drained_example_is_drained;
pub use drains::drain_turns::{Drain, begin_drain, drain_turn};
pub use drains::draining::drain;
pub use drains::laws::{
    drained_histories_are_one, drains_begin_the_drained_history, drains_go_on_until_they_end,
    drains_grow_by_their_next_entries, drains_leave_no_work, drains_look_at_parts_that_are_there,
    ended_drains_have_no_next_entry, next_drain_entries_are_one,
};
pub use drains::report_rounds::{
    a_round_finds_low_watermarks, a_round_leaves_the_greatest_safe_marks,
};
pub use plans::{Schedule, Step, read_schedule, schedule_examples};
pub use scripts::copies::copies_are_known;
pub use scripts::examples::{
    crash_before_write, crash_between_write_and_send, late_copy_is_duplicate, old_owner_is_stale,
    one_worker_writes_the_drained_example, overtaken_leases_are_lost,
    records_wait_while_one_is_prepared, steps_without_work_change_nothing,
    word_is_lost_where_a_relay_forgot, word_passes_back_over_a_relay,
};
pub use scripts::keeping::{
    leases_are_claims_of_their_workers, messages_keep_their_numbers, relays_make_no_message,
    relays_send_what_they_took, relays_write_nothing, scripts_keep_what_steps_keep,
    steps_append_at_most_one_entry, steps_keep_workers_and_marks,
};
pub use scripts::owners::{overtaken_owners_are_refused, scripted_histories_are_fenced};
pub use scripts::script_runs::run_script;
pub use scripts::world::{World, WorldRefusal};
