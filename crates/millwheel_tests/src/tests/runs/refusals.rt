//! Runs that are refused before they begin.
use super::Files;
use crate::tests::looks::Look;
use crate::tests::threads::seen;
use crate::tests::topologies::{COUNT, CUTS};
use crate::tests::{USAGE, must_hold};

// The line of a run that has a plan.
const PLANNED: &str = "run --workers 4 --rounds 12 --plan p t.json e";

// Calls: of each the line, the files, and what is said.
static REFUSED: [(&str, Files<'static>, &str); 11] = [
    ("run t.json e", (CUTS, b"", 60), USAGE),
    ("run --workers 4 t.json e", (CUTS, b"", 60), USAGE),
    (
        "run --workers 0 --rounds 1 t.json e",
        (CUTS, b"", 60),
        USAGE,
    ),
    (
        "run --workers 17 --rounds 1 t.json e",
        (CUTS, b"", 60),
        USAGE,
    ),
    (
        "run --workers 4 --rounds 1001 t.json e",
        (CUTS, b"", 60),
        USAGE,
    ),
    (
        "run --workers 4 --rounds 1 --keep k t.json e",
        (CUTS, b"", 60),
        USAGE,
    ),
    (
        "run --workers 4 --rounds 1 t.json e e",
        (CUTS, b"", 60),
        "2 event files for 1 injectors",
    ),
    (
        "run --workers 4 --rounds 1 --plan q t.json e",
        (CUTS, b"", 60),
        "no file q",
    ),
    (
        PLANNED,
        (CUTS, b"at 11 crash 3\nat 12 crash 3\n", 60),
        "plan refused: line 2",
    ),
    (
        PLANNED,
        (CUTS, b"at 0 move 3 3\n#\nat 0 move 3 4\n", 60),
        "plan refused: line 3",
    ),
    (
        PLANNED,
        (COUNT, b"at 0 move 2 0\n", 60),
        "plan refused: line 1",
    ),
];

#[test]
fn each_run_is_refused(rt: HostRuntime) {
    for (line, files, message) in &REFUSED {
        let look = Look::Refused(message);
        let is_so = seen(&rt, rt.alloc(), line, *files, &[], look);
        must_hold(&rt, is_so, format_args!("{line}: {message}"));
    }
}
