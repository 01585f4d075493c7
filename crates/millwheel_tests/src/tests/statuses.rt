//! What is said of each status, and the number with which the process ends.
use super::calls::{Fault, sink, sink_of};
use super::{bytes_of, key, made, must_hold};
use injector::LineWhy;
use millwheel_cli::{Status, tell};
use mw_ports::MemSink;
use mw_types::{Name, RowName};
use std::alloc::Global;
use std::process::Abort;
use topology::TopologyRefusal;
use trace_lines::AuditWhy;

// The status of a number, as the table below has it.
fn numbered(rt: &impl Abort, alloc: Global, number: u8) -> Status {
    match number {
        3 | 13 | 14 => of_file(rt, alloc, number),
        10 | 12 => of_row(rt, alloc, number),
        _ => alone(number),
    }
}

// The status of a number that names no file and no row.
fn alone(number: u8) -> Status {
    match number {
        0 => Status::Ok,
        2 => Status::Usage,
        4 => Status::TopologyRefused {
            why: TopologyRefusal::UnknownStream,
        },
        5 => Status::EventsRefused {
            file: 0,
            line: 2,
            why: LineWhy::NotJson,
        },
        6 => Status::PlanRefused { line: 2 },
        7 => Status::KeeperFault,
        8 => Status::SinkFault,
        9 => Status::NoMemory,
        11 => Status::HistoryFull,
        17 => Status::AuditRefused {
            line: 6,
            why: AuditWhy::Unlawful,
        },
        18 => Status::CollectRefused { line: 4, first: 1 },
        _ => Status::FileCount {
            files: 1,
            injectors: 2,
        },
    }
}

// The status of a number that names a file.
fn of_file(rt: &impl Abort, alloc: Global, number: u8) -> Status {
    let text = if number == 3 { "t.json" } else { "e" };
    let name = made(rt, Name::of(alloc, text));
    match number {
        3 => Status::NoFile { name },
        13 => Status::ReadFault { name },
        _ => Status::TooLong { name },
    }
}

// The status of a number that names a row: of a keeper that has one, and of one whose injector has a damaged one.
fn of_row(rt: &impl Abort, alloc: Global, number: u8) -> Status {
    let (part, text) = if number == 10 { (1, "h0") } else { (0, "") };
    let key = key(rt, alloc, text);
    let name = RowName { part, key };
    let bytes = bytes_of(rt, alloc, b"\0");
    match number {
        10 => Status::NotEmpty { name, bytes },
        _ => Status::RowDamaged { name, bytes },
    }
}

// Whether the status of a number is told by this line and this number. The sink, which has no text yet, is handed over.
fn is_told(rt: &impl Abort, alloc: Global, number: u8, err: MemSink, line: &str) -> bool {
    let mut err = err;
    let status = numbered(rt, alloc, number);
    let told = tell(alloc, &status, &mut err);
    drop(status);
    let is_so = told == number && err.text() == line.as_bytes();
    drop(err);
    is_so
}

// Numbers, and the line that tells each status.
static STATUSES: [(u8, &str); 17] = [
    (0, ""),
    (2, "millwheel: usage: millwheel MODE ARGS\n"),
    (3, "millwheel: no file t.json\n"),
    (4, "millwheel: topology refused: UnknownStream\n"),
    (5, "millwheel: events refused: file 0 line 2: NotJson\n"),
    (6, "millwheel: plan refused: line 2\n"),
    (7, "millwheel: the keeper failed\n"),
    (8, "millwheel: the output failed\n"),
    (9, "millwheel: out of memory\n"),
    (10, "millwheel: the keeper is not empty: part 1 key h0\n"),
    (11, "millwheel: the history is full\n"),
    (12, "millwheel: damaged row: part 0 key \n"),
    (13, "millwheel: can't read e\n"),
    (14, "millwheel: too long: e\n"),
    (15, "millwheel: 1 event files for 2 injectors\n"),
    (17, "millwheel: not a lawful run: line 6: Unlawful\n"),
    (18, "millwheel: line 4 differs from line 1\n"),
];

#[test]
fn each_status_is_told_with_its_number(rt: HostRuntime) {
    for (number, line) in &STATUSES {
        let is_told = is_told(&rt, rt.alloc(), *number, sink(rt.alloc()), line);
        must_hold(&rt, is_told, *number);
    }
}

// A full history has its number where nothing can be written after eight bytes.
#[test]
fn a_status_that_is_not_told_has_its_number(rt: HostRuntime) {
    let err = sink_of(&rt, rt.alloc(), Fault::Writes(&[1]));
    let is_told = is_told(&rt, rt.alloc(), 11, err, "millwhee");
    must_hold(&rt, is_told, "a full history");
}
