//! Messages that are lost, copied, taken and gone, and steps that have nothing to do.
use super::tables::{COUNTED, SOUND, Table, all_hold};

// A message that was lost is gone, and its record is sent once more.
const LOST: &str = "claim 0 0 = Claimed 0
claim 0 1 = Claimed 1
inject 0 0 = Committed 2
send 0 = Sent 1
lose 0 = Lost
take 0 0 = Nothing
resend 0 = Queued 1
send 0 = Sent 1
take 0 1 = Prepared
write 0 = Committed 3
resend 0 = Queued 1
send 0 = Sent 2
take 0 3 = Duplicate
take 0 2 = Committed 4
resend 0 = Queued 0
send 0 = Sent 1
take 0 4 = Nothing
count = entries 5
drain = Ok
count = entries 16";

// A worker without the lease of a message's row leaves it in flight, be it a record or an acknowledgement.
const NOT_MINE: &str = "claim 0 0 = Claimed 0
claim 1 1 = Claimed 1
inject 0 0 = Committed 2
send 0 = Sent 1
take 0 0 = NotMine
take 15 0 = NotMine
take 1 0 = Prepared
write 1 = Committed 3
send 1 = Sent 1
take 1 1 = NotMine
take 15 1 = NotMine
take 0 1 = Committed 4
take 0 1 = Nothing
count = entries 5
drain = Ok
count = entries 16";

// What was taken, what was lost and what was never sent is no message, and no number comes a second time.
const GONE: &str = "take 0 0 = Nothing
copy 0 = Nothing
lose 0 = Nothing
claim 0 0 = Claimed 0
claim 0 1 = Claimed 1
inject 0 0 = Committed 2
send 0 = Sent 1
take 0 0 = Prepared
take 0 0 = Nothing
copy 0 = Nothing
lose 0 = Nothing
write 0 = Committed 3
take 0 0 = Nothing
send 0 = Sent 1
copy 1 = Copied 2
lose 1 = Lost
lose 1 = Nothing
copy 1 = Nothing
take 0 1 = Nothing
take 0 4294967295 = Nothing
copy 4294967295 = Nothing
lose 4294967295 = Nothing
copy 2 = Copied 3
take 0 2 = Committed 4
take 0 3 = Nothing
lose 3 = Nothing
count = entries 5
drain = Ok
count = entries 16";

// While a record is prepared another one waits in flight, and no row forgets; a line is injected and an
// acknowledgement is written all the same.
const WAITING: &str = "claim 0 0 = Claimed 0
claim 0 1 = Claimed 1
inject 0 0 = Committed 2
inject 0 0 = Committed 3
send 0 = Sent 2
take 0 0 = Prepared
take 0 1 = Nothing
inject 0 0 = Committed 4
write 0 = Committed 5
send 0 = Sent 2
take 0 1 = Prepared
take 0 3 = Committed 6
last = Ack 2
purge 0 1 = Nothing
take 0 2 = Nothing
write 0 = Committed 7
last = Handle 3
write 0 = Nothing
count = entries 8
drain = Ok
count = entries 16";

// A worker that has nothing to send sends nothing, and without a lease it has nothing to do.
const NOTHING_TO_DO: &str = "send 0 = Sent 0
resend 0 = Queued 0
write 0 = Nothing
fire 0 1 = Nothing
inject 0 0 = Nothing
report 0 0 = Nothing
report 0 1 = Nothing
purge 0 1 = Nothing
crash 0 = Crashed
count = entries 0
claim 0 0 = Claimed 0
send 0 = Sent 0
inject 0 0 = Committed 1
crash 0 = Crashed
send 0 = Sent 0
count = entries 2
drain = Ok
count = entries 15";

// No line is left after the third.
const NO_LINE: &str = "claim 7 0 = Claimed 0
inject 7 0 = Committed 1
last = Inject 0
inject 7 0 = Committed 2
last = Inject 1
inject 7 0 = Committed 3
last = Inject 2
inject 7 0 = Nothing
inject 7 0 = Nothing
send 7 = Sent 3
count = entries 4
drain = Ok
count = entries 15";

// Messages that are taken, or not.
static TAKEN_ONCE: [Table; 4] = [
    ("a lost record is sent again", COUNTED, SOUND, LOST),
    ("a message for another stays", COUNTED, SOUND, NOT_MINE),
    ("a message that is gone is nothing", COUNTED, SOUND, GONE),
    (
        "a record waits while one is prepared",
        COUNTED,
        SOUND,
        WAITING,
    ),
];

#[test]
fn a_message_is_taken_once_and_by_its_worker(rt: HostRuntime) {
    all_hold(&rt, rt.alloc(), &TAKEN_ONCE);
}

// Steps that have nothing to do.
static NOTHING: [Table; 2] = [
    ("nothing to do is nothing", COUNTED, SOUND, NOTHING_TO_DO),
    ("no line is left", COUNTED, SOUND, NO_LINE),
];

#[test]
fn a_step_that_has_nothing_to_do_is_nothing(rt: HostRuntime) {
    all_hold(&rt, rt.alloc(), &NOTHING);
}
