//! What a command asks for.

use mw_types::{Name, Seq};

/// What a run reads, and what it is to write beside its result.
#[derive(Drop, PartialEq, Eq)]
pub struct Inputs {
    /// The name of the topology's file.
    pub topology: Name,
    /// The names of the event files, in the order of the injectors. There is one or more.
    pub events: Seq<Name>,
    /// Whether the history's lines are wanted.
    pub history: bool,
    /// Whether each result is wanted as soon as its entry is there, which is not beside the history's lines.
    pub live: bool,
}

/// What is to be done, by the mode of the command line.
#[derive(Drop, PartialEq, Eq)]
pub enum Call {
    /// The files are worked off by one worker, in the one order that there is without a plan.
    Solo {
        /// What it reads.
        inputs: Inputs,
    },
    /// The steps of a plan are done first, and then what is left.
    Replay {
        /// The name of the plan's file.
        plan: Name,
        /// What it reads.
        inputs: Inputs,
    },
    /// Workers that are threads share the work in rounds, and then one works off what is left.
    Run {
        /// How many workers there are: 1 to 16.
        workers: u32,
        /// How many rounds they do: 0 to 1,000.
        rounds: u32,
        /// The name of the plan's file, where there is one.
        plan: Option<Name>,
        /// What it reads.
        inputs: Inputs,
    },
    /// The files are counted at once, without a run.
    Plain {
        /// What it reads. It has no history, so none of its lines are wanted.
        inputs: Inputs,
    },
    /// An input of this size is made from a seed and worked off.
    Load {
        /// The seed.
        seed: u32,
        /// How many lines are made: 1 to 262,144.
        lines: u32,
    },
    /// A printed history is tested: whether it is that of a lawful run of the files.
    Audit {
        /// What it reads. It has no history of its own, so none of its lines are wanted.
        inputs: Inputs,
        /// The name of the trace's file.
        trace: Name,
    },
    /// The live lines of a file are written, each once.
    Collect {
        /// The name of the file.
        file: Name,
    },
}

/// A command.
#[derive(Drop, PartialEq, Eq)]
pub struct Command {
    /// What is to be done.
    pub call: Call,
    /// The name of the database in which the rows are to be kept, where they are to outlive the run.
    pub keep: Option<Name>,
}
