//! Why the files that are asked for are not run.
ghost use Rattle.std.specs.Prelude.{◌≡◌};
ghost use Rattle.millwheel_cli.specs.Inside.{status_of, of_words};

use command_line::WordsRefusal;
use injector::LineWhy;
use live_outlet::CollectRefusal;
use mw_types::{Name, NoMemory, PlanRefusal};
use task_runs::Status;
use topology::TopologyRefusal;
use trace_lines::{AuditRefusal, AuditWhy};

/// Why the files that are asked for are not run: each status that can come of reading them.
#[derive(Drop)]
pub enum Refusal {
    /// There is no file of that name.
    NoFile {
        /// The name.
        name: Name,
    },
    /// The topology's file breaks a rule.
    TopologyRefused {
        /// The first rule that it breaks.
        why: TopologyRefusal,
    },
    /// A line of an event file breaks a rule.
    EventsRefused {
        /// The number of the event file, from 0.
        file: u32,
        /// The number of its first such line, from 1.
        line: u32,
        /// The first rule that the line breaks.
        why: LineWhy,
    },
    /// A line of the plan is no step, or of a run no action.
    PlanRefused {
        /// The number of the first such line, from 1.
        line: u32,
    },
    /// Memory ran out.
    NoMemory,
    /// A file could not be read.
    ReadFault {
        /// Its name.
        name: Name,
    },
    /// A file has more bytes than its limit.
    TooLong {
        /// Its name.
        name: Name,
    },
    /// The topology has not as many injectors as there are event files.
    FileCount {
        /// How many event files there are.
        files: u32,
        /// How many injectors the topology has.
        injectors: u32,
    },
    /// A live line has the id of an earlier one, and is not the same.
    CollectRefused {
        /// The number of the first such line, from 1.
        line: u32,
        /// The number of the first line with its id.
        first: u32,
    },
    /// A trace is not the text of a lawful run of the files.
    AuditRefused {
        /// The number of its first wrong line, from 1.
        line: u32,
        /// What is wrong with that line.
        why: AuditWhy,
    },
}

impl From<NoMemory> for Refusal {
    ghost use Rattle.std.specs.Prelude.{◌≡◌};
    ghost use Rattle.millwheel_cli.specs.declared.refusal.Refusal.TheVariants as refusals;

    ghost from_gives = { λ _ refusal. refusal ≡ refusals.NoMemory };

    fn from(_want: NoMemory) -> Refusal {
        Refusal::NoMemory
    }
}

impl From<TopologyRefusal> for Refusal {
    ghost use Rattle.std.specs.Prelude.{◌≡◌};
    ghost use Rattle.millwheel_cli.specs.Inside.{of_topology};

    ghost from_gives = { λ topology refusal. refusal ≡ of_topology topology };

    fn from(topology: TopologyRefusal) -> Refusal {
        match topology {
            TopologyRefusal::NoMemory => Refusal::NoMemory,
            why => Refusal::TopologyRefused { why },
        }
    }
}

impl From<PlanRefusal> for Refusal {
    ghost use Rattle.std.specs.Prelude.{◌≡◌};
    ghost use Rattle.millwheel_cli.specs.Inside.{of_plan};

    ghost from_gives = { λ plan refusal. refusal ≡ of_plan plan };

    fn from(plan: PlanRefusal) -> Refusal {
        match plan {
            PlanRefusal::Line { line } => Refusal::PlanRefused { line },
            PlanRefusal::NoMemory => Refusal::NoMemory,
        }
    }
}

impl From<CollectRefusal> for Refusal {
    ghost use Rattle.std.specs.Prelude.{◌≡◌};
    ghost use Rattle.millwheel_cli.specs.Inside.{of_collect};

    ghost from_gives = { λ collect refusal. refusal ≡ of_collect collect };

    fn from(collect: CollectRefusal) -> Refusal {
        match collect {
            CollectRefusal::Differs { line, first } => Refusal::CollectRefused { line, first },
            CollectRefusal::NoMemory => Refusal::NoMemory,
        }
    }
}

impl From<AuditRefusal> for Refusal {
    ghost use Rattle.std.specs.Prelude.{◌≡◌};
    ghost use Rattle.millwheel_cli.specs.Inside.{of_audit};

    ghost from_gives = { λ audit refusal. refusal ≡ of_audit audit };

    fn from(audit: AuditRefusal) -> Refusal {
        match audit {
            AuditRefusal::Bad { line, why } => Refusal::AuditRefused { line, why },
            AuditRefusal::NoMemory => Refusal::NoMemory,
        }
    }
}

/// The status of a refusal.
pub fn status_of(refusal: Refusal) -> Status
    ensures { result ≡ status_of refusal }
{
    match refusal {
        Refusal::NoFile { name } => Status::NoFile { name },
        Refusal::TopologyRefused { why } => Status::TopologyRefused { why },
        Refusal::EventsRefused { file, line, why } => Status::EventsRefused { file, line, why },
        Refusal::PlanRefused { line } => Status::PlanRefused { line },
        Refusal::NoMemory => Status::NoMemory,
        Refusal::ReadFault { name } => Status::ReadFault { name },
        Refusal::TooLong { name } => Status::TooLong { name },
        Refusal::FileCount { files, injectors } => Status::FileCount { files, injectors },
        Refusal::CollectRefused { line, first } => Status::CollectRefused { line, first },
        Refusal::AuditRefused { line, why } => Status::AuditRefused { line, why },
    }
}

/// The status where the words are not read.
pub fn status_of_words(refusal: WordsRefusal) -> Status
    ensures { result ≡ of_words refusal }
{
    match refusal {
        WordsRefusal::Usage => Status::Usage,
        WordsRefusal::NoMemory => Status::NoMemory,
    }
}
