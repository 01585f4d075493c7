//! Scripts of steps on the first example's case, and what each step answers.
//!
//! A line of a script is a line of a schedule and, after ` = `, what that step answers. Two more words may stand for a
//! step: `last`, beside which stands the floor of the purge that is the last entry, and `drain`, after which the world
//! is drained.

// Without a drain the second owner has the injector.
const LINE_OF_A_FORMER_OWNER: &str = "claim 0 0 = Claimed 0
claim 1 0 = Claimed 1
inject 0 0 = Stale 1
inject 0 0 = Nothing
inject 1 0 = Committed 2
drain = Ok";

// The acknowledgement comes to the former owner of the injector.
const ACKNOWLEDGEMENT_TO_A_FORMER_OWNER: &str = "claim 0 0 = Claimed 0
claim 0 1 = Claimed 1
inject 0 0 = Committed 2
send 0 = Sent 1
take 0 0 = Prepared
write 0 = Committed 3
send 0 = Sent 1
claim 1 0 = Claimed 4
take 0 1 = Stale 4
drain = Ok";

// The new owner of the injector sends the record again, which is acknowledged to it.
const SENT_AGAIN_BY_THE_NEW_OWNER: &str = "claim 0 0 = Claimed 0
claim 0 1 = Claimed 1
inject 0 0 = Committed 2
send 0 = Sent 1
take 0 0 = Prepared
write 0 = Committed 3
send 0 = Sent 1
claim 1 0 = Claimed 4
take 0 1 = Stale 4
resend 1 = Queued 1
send 1 = Sent 1
take 0 2 = Duplicate
send 0 = Sent 1
take 1 3 = Committed 5
drain = Ok";

// A former owner of the count forgets ids.
const PURGE_OF_A_FORMER_OWNER: &str = "claim 0 0 = Claimed 0
claim 0 1 = Claimed 1
inject 0 0 = Committed 2
send 0 = Sent 1
take 0 0 = Prepared
write 0 = Committed 3
send 0 = Sent 1
take 0 1 = Committed 4
claim 1 1 = Claimed 5
purge 0 1 = Stale 5
purge 1 1 = Committed 6
last = floor 6
drain = Ok";

// A former owner of the count writes a record, and then a timer is due of which it knows.
const TIMER_OF_A_FORMER_OWNER: &str = "claim 0 0 = Claimed 0
claim 0 1 = Claimed 1
inject 0 0 = Committed 2
inject 0 0 = Committed 3
inject 0 0 = Committed 4
send 0 = Sent 3
take 0 0 = Prepared
write 0 = Committed 5
take 0 1 = Prepared
write 0 = Committed 6
take 0 2 = Prepared
write 0 = Committed 7
send 0 = Sent 3
take 0 3 = Committed 8
take 0 4 = Committed 9
take 0 5 = Committed 10
report 0 0 = Marked 18446744073709551615
report 0 1 = Marked 60
claim 1 1 = Claimed 11
fire 0 1 = Stale 11
fire 0 1 = Nothing
fire 1 1 = Committed 12
drain = Ok";

// A write whose put fails is done when it is asked again. The keeper's call of number 4 is that put.
const ASKED_AGAIN: &str = "claim 0 0 = Claimed 0
claim 0 1 = Claimed 1
inject 0 0 = Committed 2
send 0 = Sent 1
take 0 0 = Prepared
write 0 = KeeperFault
write 0 = Committed 3
drain = Ok";

/// A script: what it shows, the keeper's call that fails, and its lines.
pub type Script = (&'static str, &'static [u64], &'static str);

/// The scripts. The first four are those of owners that were overtaken, and were worked out by hand, as the last.
pub static SCRIPTS: [Script; 6] = [
    ("a line of a former owner", &[], LINE_OF_A_FORMER_OWNER),
    (
        "an acknowledgement to a former owner",
        &[],
        ACKNOWLEDGEMENT_TO_A_FORMER_OWNER,
    ),
    (
        "a record that the new owner sends again",
        &[],
        SENT_AGAIN_BY_THE_NEW_OWNER,
    ),
    ("a purge of a former owner", &[], PURGE_OF_A_FORMER_OWNER),
    ("a timer of a former owner", &[], TIMER_OF_A_FORMER_OWNER),
    ("work survives a keeper fault", &[4], ASKED_AGAIN),
];

/// The two sides of a line.
pub fn sides(line: &str) -> (&str, &str) {
    match line.split_once(" = ") {
        Some(sides) => sides,
        None => (line, ""),
    }
}
