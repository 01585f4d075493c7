//! What a command is to do, once its files are read.
ghost use Rattle.std.specs.Prelude.{◌≡◌};
ghost use Rattle.task_runs.specs.Tasks.{is_at_once, wanted_of};

use plans::{Actions, Schedule};
use run_history::Case;
use topology::Routes;

/// What is to be written of a run.
#[derive(Drop, Clone, Copy)]
pub enum Wanted {
    /// Its result.
    ResultAlone,
    /// The lines of its history, and then its result.
    HistoryFirst,
    /// The summary line of its result.
    SummaryAlone,
    /// Each result as soon as its entry is there, and at the end the summary line.
    EachAtOnce,
}

impl Wanted {
    /// Whether each result is to be written at once.
    pub fn is_at_once(self) -> bool
        ensures { result ≡ is_at_once self }
    {
        matches!(self, Wanted::EachAtOnce)
    }
}

/// What comes before the drain of a run.
#[derive(Drop)]
pub enum Before {
    /// The steps of a plan, which one thread does. Without a plan there are none.
    Steps {
        /// The steps.
        steps: Schedule,
    },
    /// Rounds of work, which workers in two threads do.
    Rounds {
        /// How many workers there are: 1 to 16.
        workers: u32,
        /// How many rounds they do: 0 to 1,000.
        rounds: u32,
        /// What a plan has happen to them. Without a plan there is nothing.
        actions: Actions,
    },
}

/// The case of a run, what comes before its drain, and what is to be written of it.
#[derive(Drop)]
pub struct Task {
    /// What is run, over a topology without weak computations.
    pub case: Case,
    /// The weak computations that were left out of that topology, by the ways through them.
    pub routes: Routes,
    /// What comes before the drain.
    pub before: Before,
    /// What is to be written.
    pub wanted: Wanted,
}

/// What is to be written where the lines of the history are asked for, or each result at once.
pub fn wanted_of(history: bool, live: bool) -> Wanted
    ensures { result ≡ wanted_of history live }
{
    if live {
        Wanted::EachAtOnce
    } else if history {
        Wanted::HistoryFirst
    } else {
        Wanted::ResultAlone
    }
}
