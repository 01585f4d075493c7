//! Texts that are accepted.
use super::cases::{Answer, ONE, answer_of};
use super::traces::{MARKED, NONE, REPLAYED, THREE};
use crate::tests::must;
use crate::tests::text_cases::{RECORDS, TWO};

// Event files, a text of each, and how many entries it has.
static ACCEPTED: [(&str, &str, Answer); 4] = [
    (TWO, MARKED, (11, "Ok")),
    (RECORDS, THREE, (14, "Ok")),
    ("", NONE, (2, "Ok")),
    (ONE, REPLAYED, (11, "Ok")),
];

#[test]
fn audit_accepts(rt: HostRuntime) {
    for (events, text, answer) in &ACCEPTED {
        let answered = answer_of(&rt, rt.alloc(), events, text);
        must(&rt, answered == *answer, *events);
    }
}
