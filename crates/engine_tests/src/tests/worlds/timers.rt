//! Reports, timers and purges.
use super::tables::{COUNTED, SOUND, Table, all_hold};
use crate::tests::text_cases::{COUNT, TWO};

// A timer fires once its interval's mark is at its time, and not while a record is prepared.
const DUE: &str = "claim 0 0 = Claimed 0
claim 0 1 = Claimed 1
report 0 0 = Marked 0
fire 0 1 = Nothing
inject 0 0 = Committed 2
report 0 0 = Marked 10
send 0 = Sent 1
take 0 0 = Prepared
write 0 = Committed 3
report 0 1 = Marked 10
fire 0 1 = Nothing
send 0 = Sent 1
take 0 1 = Committed 4
report 0 0 = Marked 60
fire 0 1 = Nothing
report 0 1 = Marked 60
inject 0 0 = Committed 5
send 0 = Sent 1
take 0 2 = Prepared
fire 0 1 = Nothing
fire 1 1 = Nothing
write 0 = Committed 6
fire 0 1 = Committed 7
last = Fire 60
fire 0 1 = Nothing
send 0 = Sent 1
take 0 3 = Committed 8
report 0 0 = Marked 18446744073709551615
report 0 1 = Marked 120
fire 0 1 = Committed 9
last = Fire 120
report 0 1 = Marked 18446744073709551615
fire 0 1 = Nothing
purge 0 1 = Committed 10
last = Purge 10
purge 0 1 = Nothing
inject 0 0 = Nothing
count = entries 11
drain = Ok
last = Claim 1
count = entries 13";

// The next owner of an interval reports what its last owner did.
const REPORTED: &str = "claim 0 0 = Claimed 0
claim 0 1 = Claimed 1
inject 0 0 = Committed 2
send 0 = Sent 1
take 0 0 = Prepared
write 0 = Committed 3
send 0 = Sent 1
take 0 1 = Committed 4
report 0 0 = Marked 60
inject 0 0 = Committed 5
report 0 0 = Marked 70
claim 1 0 = Claimed 6
report 1 0 = Marked 70
report 0 0 = Stale 6
count = entries 7
drain = Ok
last = Purge 13
count = entries 14";

// A row forgets where it has seen ids and the floor is above its own; the floor stays where the record
// is not acknowledged.
const FORGOTTEN: &str = "claim 0 0 = Claimed 0
claim 0 1 = Claimed 1
purge 0 0 = Nothing
purge 0 1 = Nothing
inject 0 0 = Committed 2
purge 0 0 = Nothing
send 0 = Sent 1
take 0 0 = Prepared
write 0 = Committed 3
purge 1 1 = Nothing
purge 0 1 = Committed 4
last = Purge 2
purge 0 1 = Nothing
send 0 = Sent 1
take 0 1 = Committed 5
purge 0 1 = Committed 6
last = Purge 6
purge 0 1 = Nothing
purge 0 0 = Nothing
count = entries 7
drain = Ok
last = Purge 17
count = entries 18";

// Timers that fire, or not yet.
static DUES: [Table; 2] = [
    ("a timer fires when it is due", (COUNT, TWO), SOUND, DUE),
    (
        "the next owner reports the same",
        (COUNT, TWO),
        SOUND,
        REPORTED,
    ),
];

#[test]
fn timers_fire_when_they_are_due(rt: HostRuntime) {
    all_hold(&rt, rt.alloc(), &DUES);
}

// A row that forgets, or has nothing to forget.
static FORGETS: [Table; 1] = [("nothing to forget", COUNTED, SOUND, FORGOTTEN)];

#[test]
fn nothing_to_forget_is_nothing(rt: HostRuntime) {
    all_hold(&rt, rt.alloc(), &FORGETS);
}
