//! Leases that were overtaken, and workers without one.
use super::tables::{COUNTED, SOUND, Table, all_hold};

// The second worker claims the count while the first has prepared a record of it. The record is sent once
// more, to its new owner. Two claims, two lines and what comes of each, two timers and a purge follow.
const OLD_OWNER: &str = "claim 0 0 = Claimed 0
claim 0 1 = Claimed 1
inject 0 0 = Committed 2
send 0 = Sent 1
take 0 0 = Prepared
claim 1 1 = Claimed 3
write 0 = Stale 3
count = entries 4
resend 0 = Queued 1
send 0 = Sent 1
take 1 1 = Prepared
write 1 = Committed 4
last = Handle 2
send 1 = Sent 1
take 0 2 = Committed 5
last = Ack 2
count = entries 6
drain = Ok
last = Purge 16
count = entries 17";

// Each lease that was overtaken is found stale once, and is gone then; the new owner takes the
// acknowledgement.
const STALE_REPORT: &str = "claim 0 0 = Claimed 0
claim 0 1 = Claimed 1
inject 0 0 = Committed 2
send 0 = Sent 1
take 0 0 = Prepared
write 0 = Committed 3
send 0 = Sent 1
claim 1 0 = Claimed 4
claim 1 1 = Claimed 5
report 0 1 = Stale 5
report 0 1 = Nothing
purge 0 1 = Nothing
report 0 0 = Stale 4
inject 0 0 = Nothing
resend 0 = Queued 0
take 0 1 = NotMine
take 1 1 = Committed 6
last = Ack 2
resend 1 = Queued 0
count = entries 7
drain = Ok
count = entries 18";

// An acknowledgement that is taken under a lease that was overtaken is gone, and a purge is stale too.
const STALE_ACK: &str = "claim 0 0 = Claimed 0
claim 0 1 = Claimed 1
inject 0 0 = Committed 2
send 0 = Sent 1
take 0 0 = Prepared
write 0 = Committed 3
send 0 = Sent 1
claim 1 0 = Claimed 4
claim 2 1 = Claimed 5
take 0 1 = Stale 4
take 0 1 = Nothing
purge 0 1 = Stale 5
purge 0 1 = Nothing
resend 1 = Queued 1
send 1 = Sent 1
take 2 2 = Duplicate
send 2 = Sent 1
take 1 3 = Committed 6
count = entries 7
drain = Ok
count = entries 18";

// A worker sends once more what it knows as pending, though its lease was overtaken, until it learns that.
const RESENT: &str = "claim 0 0 = Claimed 0
inject 0 0 = Committed 1
claim 1 0 = Claimed 2
resend 0 = Queued 1
send 0 = Sent 2
inject 0 0 = Stale 2
resend 0 = Queued 0
inject 1 0 = Committed 3
resend 1 = Queued 2
send 1 = Sent 3
count = entries 4
drain = Ok
count = entries 16";

// The four tables.
static TABLES: [Table; 4] = [
    ("old owner is stale", COUNTED, SOUND, OLD_OWNER),
    ("a report is stale once", COUNTED, SOUND, STALE_REPORT),
    ("an acknowledgement is stale", COUNTED, SOUND, STALE_ACK),
    (
        "a worker resends until its lease is stale",
        COUNTED,
        SOUND,
        RESENT,
    ),
];

#[test]
fn a_lease_that_was_overtaken_is_stale(rt: HostRuntime) {
    all_hold(&rt, rt.alloc(), &TABLES);
}
