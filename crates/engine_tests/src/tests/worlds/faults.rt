//! A keeper that does not tell its rows, a keeper that fails, and a book that is full.
use super::fixtures::{CHAIN, PASSED};
use super::tables::{COUNTED, Over, Table, all_hold};
use crate::tests::text_cases::{COUNT, RECORDS, TWO};

// A row of the count that has handled nothing.
const NEW_ROW: &[u8] = &[
    1, 0, 0, 0, 0, 0, 0, 0, 0, 0, 0, 0, 0, 0, 0, 0, 0, 1, 0, 0, 0, 0, 0, 0, 0, 0, 0, 0, 0, 0, 0, 0,
    0, 0, 0, 0, 0, 0, 0, 0, 0, 0,
];

// Bytes that are no row.
const NO_ROW: &[u8] = &[255];

// Each kind of step over a keeper that does not tell.
const UNTOLD: &str = "claim 0 0 = Claimed 0
claim 0 1 = Claimed 1
inject 0 0 = Committed 2
send 0 = Sent 1
copy 0 = Copied 1
lose 1 = Lost
take 0 0 = Prepared
write 0 = Committed 3
resend 0 = Queued 1
send 0 = Sent 2
take 0 3 = Duplicate
take 0 2 = Committed 4
send 0 = Sent 1
take 0 4 = Nothing
report 0 0 = Marked 60
report 0 1 = Marked 60
fire 0 1 = Committed 5
last = Fire 60
purge 0 1 = Committed 6
last = Purge 6
claim 1 0 = Claimed 7
inject 0 0 = Stale 7
inject 0 0 = Nothing
crash 0 = Crashed
report 0 1 = Nothing
count = entries 8";

// A keeper that shows what is no row lets the interval that has it not be claimed.
const DAMAGED: &str = "claim 0 0 = Claimed 0
claim 0 1 = RowDamaged
claim 0 1 = RowDamaged
inject 0 0 = Committed 1
report 0 1 = Nothing
count = entries 2
drain = RowDamaged
last = Claim 0
count = entries 3";

// What the keeper shows is a row, or none.
static BLIND: [Table; 2] = [
    (
        "a keeper that does not tell",
        (COUNT, TWO),
        Over::Blind(NEW_ROW),
        UNTOLD,
    ),
    (
        "a row that is damaged",
        COUNTED,
        Over::Blind(NO_ROW),
        DAMAGED,
    ),
];

#[test]
fn a_keeper_does_not_tell_or_shows_what_is_no_row(rt: HostRuntime) {
    all_hold(&rt, rt.alloc(), &BLIND);
}

// A step whose call of the keeper fails leaves the world as it was, but that a message which was taken is
// gone. The calls that fail are one of each kind.
const FAILING: &str = "claim 0 0 = KeeperFault
inject 0 0 = Nothing
claim 0 0 = Claimed 0
claim 0 1 = Claimed 1
inject 0 0 = KeeperFault
send 0 = Sent 0
last = Claim 1
inject 0 0 = Committed 2
last = Inject 0
send 0 = Sent 1
take 0 0 = Prepared
write 0 = KeeperFault
send 0 = Sent 0
count = entries 3
write 0 = Committed 3
send 0 = Sent 1
copy 1 = Copied 2
take 0 1 = KeeperFault
take 0 1 = Nothing
count = entries 4
take 0 2 = Committed 4
report 0 0 = Marked 60
report 0 1 = Marked 60
fire 0 1 = KeeperFault
count = entries 5
fire 0 1 = Committed 5
purge 0 1 = KeeperFault
purge 0 1 = Committed 6
count = entries 7
drain = KeeperFault
count = entries 8
drain = Ok
count = entries 15";

// A timer of the first count whose put fails sends nothing; then its window goes to the second count.
const UNFIRED: &str = "claim 0 0 = Claimed 0
claim 0 1 = Claimed 1
claim 0 2 = Claimed 2
inject 0 0 = Committed 3
send 0 = Sent 1
take 0 0 = Prepared
write 0 = Committed 4
send 0 = Sent 1
take 0 1 = Committed 5
report 0 0 = Marked 60
report 0 1 = Marked 60
fire 0 1 = KeeperFault
send 0 = Sent 0
count = entries 6
fire 0 1 = Committed 6
last = Fire 60
send 0 = Sent 1
take 0 2 = Prepared
write 0 = Committed 7
last = Handle 6
count = entries 8";

// A record whose put fails is not passed on; then it is, beside its acknowledgement.
const UNPASSED: &str = "claim 0 0 = Claimed 0
claim 0 1 = Claimed 1
claim 0 2 = Claimed 2
inject 0 0 = Committed 3
send 0 = Sent 1
take 0 0 = Prepared
write 0 = KeeperFault
send 0 = Sent 0
count = entries 4
write 0 = Committed 4
last = Handle 3
send 0 = Sent 2
count = entries 5";

// Tables over a keeper of which these calls fail.
static FAULTS: [Table; 3] = [
    (
        "a keeper that fails",
        (COUNT, TWO),
        Over::Failing(&[1, 4, 6, 8, 10, 12, 15]),
        FAILING,
    ),
    (
        "a timer of a chain",
        (CHAIN, TWO),
        Over::Failing(&[7]),
        UNFIRED,
    ),
    (
        "a record that is passed on",
        (PASSED, RECORDS),
        Over::Failing(&[5]),
        UNPASSED,
    ),
];

#[test]
fn a_step_whose_keeper_fails_is_not_done(rt: HostRuntime) {
    all_hold(&rt, rt.alloc(), &FAULTS);
}

// A book that takes three entries refuses the steps that would append a fourth, and no other.
const FULL: &str = "claim 0 0 = Claimed 0
claim 0 1 = Claimed 1
inject 0 0 = Committed 2
inject 0 0 = HistoryFull
claim 1 0 = HistoryFull
report 1 0 = Nothing
inject 1 0 = Nothing
report 0 0 = Marked 0
report 0 1 = Marked 0
send 0 = Sent 1
copy 0 = Copied 1
lose 0 = Lost
resend 0 = Queued 1
fire 0 1 = Nothing
purge 0 1 = Nothing
take 1 1 = NotMine
take 0 1 = Prepared
write 0 = HistoryFull
write 0 = HistoryFull
count = entries 3
crash 0 = Crashed
write 0 = Nothing
drain = HistoryFull
count = entries 3";

// A write under a lease that was overtaken is stale also where the history is full.
const STALE_AND_FULL: &str = "claim 0 0 = Claimed 0
claim 0 1 = Claimed 1
inject 0 0 = Committed 2
send 0 = Sent 1
take 0 0 = Prepared
claim 1 1 = Claimed 3
inject 0 0 = HistoryFull
write 0 = Stale 3
write 0 = Nothing
count = entries 4";

// A book that takes three entries, and one that takes four.
static FULL_BOOKS: [Table; 2] = [
    ("three entries", COUNTED, Over::Full(3), FULL),
    ("four entries", COUNTED, Over::Full(4), STALE_AND_FULL),
];

#[test]
fn a_full_history_takes_no_entry(rt: HostRuntime) {
    all_hold(&rt, rt.alloc(), &FULL_BOOKS);
}
