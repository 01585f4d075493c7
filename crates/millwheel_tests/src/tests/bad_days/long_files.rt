//! Files at their greatest length, and plans and words at their greatest numbers, by the program's own call.
use crate::tests::USAGE;
use crate::tests::calls::REPLAY;
use crate::tests::looks::Look;
use crate::tests::repeats::{Repeat, all_are_repeated};
use crate::tests::replays::{Planned, TEXT, all_are_planned};

// What is written where nothing is injected.
const NOTHING: &str = "{\"fired\":0,\"handled\":0,\"injected\":0,\"late\":0}\n";

// The lines of calls with a long plan, and with long events.
const PLAN: &str = "replay --plan f t.json e";

const LINES: &str = "solo t.json f";

// Calls with a plan or events at their greatest length and one letter longer. One line of blanks is no record, and one of
// `#` is no step.
static LONG: [Repeat; 4] = [
    ("a plan", PLAN, "#", 1048576, Look::Writes(TEXT)),
    (
        "a longer plan",
        PLAN,
        "#",
        1048577,
        Look::Refused("too long: f"),
    ),
    ("events", LINES, " ", 33554432, Look::Writes(NOTHING)),
    (
        "longer events",
        LINES,
        " ",
        33554433,
        Look::Refused("too long: f"),
    ),
];

#[test]
fn files_go_up_to_their_lengths(rt: HostRuntime) {
    all_are_repeated(&rt, rt.alloc(), &LONG);
}

// What is said of plans of one step, and of one whose third line is none.
const FIRST_LINE: Look<'static> = Look::Refused("plan refused: line 1");

const THIRD_LINE: Look<'static> = Look::Refused("plan refused: line 3");

// What is said of words that are no command, and what is written of a plan that is one.
const NO_WORDS: Look<'static> = Look::Refused(USAGE);

const WRITTEN: Look<'static> = Look::Writes(TEXT);

// Calls with plans, and with words that are no command, each under its plan or its words.
static NUMBERED: [Planned<'static>; 17] = [
    ("claim 15 0", REPLAY, "claim 15 0", WRITTEN),
    ("claim 16 0", REPLAY, "claim 16 0", FIRST_LINE),
    ("claim 0 1", REPLAY, "claim 0 1", WRITTEN),
    ("claim 0 2", REPLAY, "claim 0 2", FIRST_LINE),
    ("the greatest take", REPLAY, "take 0 4294967295", WRITTEN),
    ("a greater take", REPLAY, "take 0 4294967296", FIRST_LINE),
    ("ten digits", REPLAY, "crash 0000000015", WRITTEN),
    ("eleven digits", REPLAY, "crash 00000000015", FIRST_LINE),
    ("fire 0 1", REPLAY, "fire 0 1", WRITTEN),
    ("fire 0 0", REPLAY, "fire 0 0", FIRST_LINE),
    ("two blanks", REPLAY, "\n#\nclaim  0 0", THIRD_LINE),
    (
        "17 workers",
        "run --workers 17 --rounds 4 t.json e",
        "",
        NO_WORDS,
    ),
    (
        "no worker",
        "run --workers 0 --rounds 4 t.json e",
        "",
        NO_WORDS,
    ),
    (
        "1001 rounds",
        "run --workers 2 --rounds 1001 t.json e",
        "",
        NO_WORDS,
    ),
    ("a great seed", "load 4294967296 1", "", NO_WORDS),
    ("262145 lines", "load 7 262145", "", NO_WORDS),
    ("no line", "load 7 0", "", NO_WORDS),
];

#[test]
fn plans_and_words_go_up_to_their_numbers(rt: HostRuntime) {
    all_are_planned(&rt, rt.alloc(), &NUMBERED);
}
