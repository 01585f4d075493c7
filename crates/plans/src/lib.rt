//! What a plan says, of either mode: the steps of a script, which `replay` does, or what happens to workers
//! in two threads, which `run` has happen; one a line.
//!
//! A line of a schedule is a verb and its one or two numbers. A line of actions is `at`, a round, a verb and a
//! worker, and `move` has an interval before its worker. Stands on `run_history`, whose cases have the
//! intervals and the parts, on `text_lines`, and on the crates below them. Public contract: a plan is read
//! exactly, or its first line that says nothing is named, from 1. Definitions: `specs/Schedules.antt`, which
//! steps a schedule names; `specs/Steps.antt`, which steps there are; `specs/Plans.antt`, which actions a plan
//! of threads names; `specs/Named.antt`, what both name.
#![tactic(auto)]

mod action;
mod action_lines;
mod examples;
mod named;
mod plan;
mod schedule;
mod schedule_cases;
mod step;
mod step_lines;

pub use action::{Action, What};
pub use examples::plan_examples;
pub use plan::{Actions, read_actions};
pub use schedule::{Schedule, read_schedule};
pub use schedule_cases::schedule_examples;
pub use step::Step;
