//! Workers that crash, and records that come late.
use super::tables::{COUNTED, SOUND, Table, all_hold};

// The record is copied, handled and acknowledged, and its row forgets its id; then the copy comes.
const LATE_COPY: &str = "claim 0 0 = Claimed 0
claim 0 1 = Claimed 1
inject 0 0 = Committed 2
send 0 = Sent 1
copy 0 = Copied 1
take 0 0 = Prepared
write 0 = Committed 3
send 0 = Sent 1
take 0 2 = Committed 4
purge 0 1 = Committed 5
last = Purge 5
take 0 1 = Duplicate
count = entries 6
drain = Ok
last = Purge 16
count = entries 17";

// A worker crashes once it has written a line and before it sends its record, which the next owner of the
// injector finds pending.
const UNSENT: &str = "claim 0 0 = Claimed 0
claim 0 1 = Claimed 1
inject 0 0 = Committed 2
crash 0 = Crashed
send 0 = Sent 0
claim 1 0 = Claimed 3
resend 1 = Queued 1
send 1 = Sent 1
claim 1 1 = Claimed 4
take 1 0 = Prepared
write 1 = Committed 5
last = Handle 2
count = entries 6
drain = Ok
last = Purge 17
count = entries 18";

// A worker crashes once it has prepared a record and before it writes; nothing is left of that, and the
// message is gone.
const UNWRITTEN: &str = "claim 0 0 = Claimed 0
claim 0 1 = Claimed 1
inject 0 0 = Committed 2
send 0 = Sent 1
take 0 0 = Prepared
crash 0 = Crashed
count = entries 3
write 0 = Nothing
take 0 0 = Nothing
inject 0 0 = Nothing
report 0 1 = Nothing
resend 0 = Queued 0
last = Inject 0
drain = Ok
last = Purge 15
count = entries 16";

// A drain that comes to a crash's end once more writes its claims alone.
const SECOND_DRAIN: &str = "drain = Ok
last = Purge 13
count = entries 14
crash 0 = Crashed
drain = Ok
last = Claim 1
count = entries 16";

// The four tables.
static TABLES: [Table; 4] = [
    ("late copy is duplicate", COUNTED, SOUND, LATE_COPY),
    ("crash between write and send", COUNTED, SOUND, UNSENT),
    ("crash before write", COUNTED, SOUND, UNWRITTEN),
    ("a second drain claims alone", COUNTED, SOUND, SECOND_DRAIN),
];

#[test]
fn a_crash_or_a_late_copy_changes_nothing_that_is_written(rt: HostRuntime) {
    all_hold(&rt, rt.alloc(), &TABLES);
}
