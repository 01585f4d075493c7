//! How a call of the program ended.
ghost use Rattle.std.specs.Prelude.{◌≡◌};
ghost use Rattle.task_runs.specs.Numbers.{number_of};
ghost use Rattle.task_runs.specs.Messages.{is_ok, topology_rule, line_rule, audit_rule};

use injector::LineWhy;
use mw_types::{Bytes, Name, RowName};
use std::fmt;
use topology::TopologyRefusal;
use trace_lines::AuditWhy;

/// How a call of the program ended. Its number is the program's exit status.
#[derive(Drop, PartialEq, Eq)]
pub enum Status {
    /// The run came to its end, and its result was written whole.
    Ok,
    /// The words are not those of a call.
    Usage,
    /// There is no file of this name.
    NoFile {
        /// The word that names it.
        name: Name,
    },
    /// The topology's file breaks a rule.
    TopologyRefused {
        /// The first rule that it breaks, which is never that memory ran out.
        why: TopologyRefusal,
    },
    /// A line of an event file breaks a rule.
    EventsRefused {
        /// The number of the event file, from 0.
        file: u32,
        /// The number of its first bad line, from 1.
        line: u32,
        /// The first rule that the line breaks.
        why: LineWhy,
    },
    /// A line of the plan is no step.
    PlanRefused {
        /// The number of its first such line, from 1.
        line: u32,
    },
    /// The keeper failed.
    KeeperFault,
    /// The output failed.
    SinkFault,
    /// Memory ran out.
    NoMemory,
    /// The keeper holds a row already; where a contract can see its rows, this is the first.
    NotEmpty {
        /// The row's name.
        name: RowName,
        /// The row's bytes.
        bytes: Bytes,
    },
    /// The history has as many entries as it may have.
    HistoryFull,
    /// The keeper gave bytes that are those of no row that fits its name.
    RowDamaged {
        /// The row's name.
        name: RowName,
        /// The bytes.
        bytes: Bytes,
    },
    /// This file could not be read.
    ReadFault {
        /// The word that names it.
        name: Name,
    },
    /// This file has more bytes than are allowed.
    TooLong {
        /// The word that names it.
        name: Name,
    },
    /// There are not as many event files as injectors.
    FileCount {
        /// How many event files the words name.
        files: u32,
        /// How many injectors the topology has.
        injectors: u32,
    },
    /// The trace is not the text of a lawful run of the files.
    AuditRefused {
        /// The number of its first wrong line, from 1.
        line: u32,
        /// What is wrong with that line.
        why: AuditWhy,
    },
    /// A live line has the id of an earlier one, and is not the same.
    CollectRefused {
        /// The number of the first such line, from 1.
        line: u32,
        /// The number of the first line with its id.
        first: u32,
    },
}

impl Status {
    /// Whether the run came to its end.
    pub fn is_ok(&self) -> bool
        ensures { result ≡ is_ok self.now }
    {
        match self {
            Status::Ok => true,
            _ => false,
        }
    }

    /// The number with which the program ends.
    pub fn number(&self) -> u8
        ensures { result ≡ number_of self.now }
    {
        match self {
            Status::Ok => 0,
            Status::Usage => 2,
            Status::NoFile { .. } => 3,
            Status::TopologyRefused { .. } => 4,
            Status::EventsRefused { .. } => 5,
            Status::PlanRefused { .. } => 6,
            Status::KeeperFault => 7,
            Status::SinkFault => 8,
            Status::NoMemory => 9,
            Status::NotEmpty { .. } => 10,
            Status::HistoryFull => 11,
            Status::RowDamaged { .. } => 12,
            Status::ReadFault { .. } => 13,
            Status::TooLong { .. } => 14,
            Status::FileCount { .. } => 15,
            Status::AuditRefused { .. } => 17,
            Status::CollectRefused { .. } => 18,
        }
    }
}

/// What the program says of it: nothing with Ok.
impl fmt::Display for Status {
    ghost use Rattle.std.specs.Prelude.{Some};
    ghost use Rattle.task_runs.specs.Messages.{message_of};

    ghost output = { λ status. Some (message_of status) };

    fn fmt<W: fmt::Write>(&self, f: &mut fmt::Formatter<W>) -> fmt::Result {
        match self {
            Status::Ok => Ok(()),
            Status::Usage => f.write_str("usage: millwheel MODE ARGS"),
            Status::NoFile { name } => write!(f, "no file {}", name.text()),
            Status::TopologyRefused { why } => {
                write!(f, "topology refused: {}", topology_rule(*why))
            }
            Status::EventsRefused { file, line, why } => {
                let rule = line_rule(*why);
                write!(f, "events refused: file {file} line {line}: {rule}")
            }
            Status::PlanRefused { line } => write!(f, "plan refused: line {line}"),
            Status::KeeperFault => f.write_str("the keeper failed"),
            Status::SinkFault => f.write_str("the output failed"),
            Status::NoMemory => f.write_str("out of memory"),
            Status::NotEmpty { name, .. } => {
                let (part, key) = (name.part, name.key.text());
                write!(f, "the keeper is not empty: part {part} key {key}")
            }
            Status::HistoryFull => f.write_str("the history is full"),
            Status::RowDamaged { name, .. } => {
                let (part, key) = (name.part, name.key.text());
                write!(f, "damaged row: part {part} key {key}")
            }
            Status::ReadFault { name } => write!(f, "can't read {}", name.text()),
            Status::TooLong { name } => write!(f, "too long: {}", name.text()),
            Status::FileCount { files, injectors } => {
                write!(f, "{files} event files for {injectors} injectors")
            }
            Status::AuditRefused { line, why } => {
                let rule = audit_rule(*why);
                write!(f, "not a lawful run: line {line}: {rule}")
            }
            Status::CollectRefused { line, first } => {
                write!(f, "line {line} differs from line {first}")
            }
        }
    }
}

// The name of a rule of topology files.
fn topology_rule(why: TopologyRefusal) -> &'static str
    ensures { result.now ≡ topology_rule why }
{
    match why {
        TopologyRefusal::NotJson => "NotJson",
        TopologyRefusal::BadShape => "BadShape",
        TopologyRefusal::TooMany => "TooMany",
        TopologyRefusal::BadName => "BadName",
        TopologyRefusal::DoubleName => "DoubleName",
        TopologyRefusal::DoubleStream => "DoubleStream",
        TopologyRefusal::UnknownStream => "UnknownStream",
        TopologyRefusal::BadNumber => "BadNumber",
        TopologyRefusal::BadCuts => "BadCuts",
        TopologyRefusal::BadWeak => "BadWeak",
        TopologyRefusal::NoMemory => "NoMemory",
    }
}

// The name of a rule of event lines.
fn line_rule(why: LineWhy) -> &'static str
    ensures { result.now ≡ line_rule why }
{
    match why {
        LineWhy::NotJson => "NotJson",
        LineWhy::NotObject => "NotObject",
        LineWhy::BadKey => "BadKey",
        LineWhy::BadStamp => "BadStamp",
        LineWhy::BadValue => "BadValue",
        LineWhy::TooManyLines => "TooManyLines",
    }
}

// What is wrong with a line of a printed history.
fn audit_rule(why: AuditWhy) -> &'static str
    ensures { result.now ≡ audit_rule why }
{
    match why {
        AuditWhy::NotALine => "NotALine",
        AuditWhy::Unlawful => "Unlawful",
        AuditWhy::NotFinished => "NotFinished",
        AuditWhy::BadText => "BadText",
    }
}
