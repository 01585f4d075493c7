//! Messages that pass relays, in either direction, and relays that forget.
use super::fixtures::{BESIDE, RELAYED, RELAYED_TWICE};
use super::tables::{SOUND, Table, all_hold};
use crate::tests::text_cases::RECORDS;

// The record passes the relay before it is taken, and its acknowledgement passes it on the way back.
const THERE_AND_BACK: &str = "claim 0 0 = Claimed 0
claim 0 1 = Claimed 1
inject 0 0 = Committed 2
send 0 = Sent 1
take 0 0 = Nothing
relay 0 0 = Sent 1
take 0 1 = Prepared
write 0 = Committed 3
send 0 = Sent 1
relay 0 2 = Sent 1
take 0 3 = Committed 4
drain = Ok
count = entries 16";

// The acknowledgement is lost where the relay has forgotten the record, which is sent again then and is a
// duplicate.
const FORGOTTEN: &str = "claim 0 0 = Claimed 0
claim 0 1 = Claimed 1
inject 0 0 = Committed 2
send 0 = Sent 1
take 0 0 = Nothing
relay 0 0 = Sent 1
take 0 1 = Prepared
write 0 = Committed 3
send 0 = Sent 1
forget 0 = Crashed
relay 0 2 = Lost
resend 0 = Queued 1
send 0 = Sent 1
relay 0 3 = Sent 1
take 0 4 = Duplicate
send 0 = Sent 1
relay 0 5 = Sent 1
take 0 6 = Committed 4
drain = Ok
count = entries 16";

// A drain behind a script that left an id with the relay, and a message on its way, is the same.
const LEFT_BEHIND: &str = "claim 0 0 = Claimed 0
claim 0 1 = Claimed 1
inject 0 0 = Committed 2
send 0 = Sent 1
relay 0 0 = Sent 1
drain = Ok
count = entries 16
relay 0 1 = Nothing
relay 0 0 = Nothing";

// Of two relays a record passes the first before the second, and its acknowledgement the second before the
// first. A copy has as many to pass as its original, and a relay passes one acknowledgement of a record alone.
const TWO_RELAYS: &str = "claim 0 0 = Claimed 0
claim 1 1 = Claimed 1
inject 0 0 = Committed 2
send 0 = Sent 1
take 9 0 = Nothing
relay 1 0 = Nothing
relay 0 7 = Nothing
relay 0 0 = Sent 1
relay 0 0 = Nothing
copy 1 = Copied 2
relay 0 1 = Nothing
relay 1 1 = Sent 1
relay 1 2 = Sent 1
take 9 3 = NotMine
take 1 3 = Prepared
write 1 = Committed 3
take 1 4 = Duplicate
send 1 = Sent 2
take 0 5 = Nothing
relay 0 5 = Nothing
relay 1 5 = Sent 1
relay 1 6 = Lost
relay 0 7 = Sent 1
take 0 8 = Committed 4
drain = Ok";

// The second of two relays forgets alone; the record is sent again, and its acknowledgement passes both.
const ONE_OF_TWO: &str = "claim 0 0 = Claimed 0
claim 1 1 = Claimed 1
inject 0 0 = Committed 2
send 0 = Sent 1
relay 0 0 = Sent 1
relay 1 1 = Sent 1
forget 1 = Crashed
take 1 2 = Prepared
write 1 = Committed 3
send 1 = Sent 1
relay 1 3 = Lost
resend 0 = Queued 1
send 0 = Sent 1
relay 0 4 = Sent 1
relay 1 5 = Sent 1
take 1 6 = Duplicate
send 1 = Sent 1
relay 1 7 = Sent 1
relay 0 8 = Sent 1
take 0 9 = Committed 4
drain = Ok";

// Where two weak computations read one stream, each of the line's two records has its own relay.
const EITHER: &str = "claim 0 0 = Claimed 0
claim 0 1 = Claimed 1
inject 0 0 = Committed 2
send 0 = Sent 2
relay 1 0 = Nothing
relay 0 0 = Sent 1
relay 0 1 = Nothing
relay 1 1 = Sent 1
take 0 2 = Prepared
write 0 = Committed 3
take 0 3 = Prepared
write 0 = Committed 4
drain = Ok";

// What relays do.
static RELAYS: [Table; 6] = [
    ("there and back", (RELAYED, RECORDS), SOUND, THERE_AND_BACK),
    ("a relay forgets", (RELAYED, RECORDS), SOUND, FORGOTTEN),
    ("a drain behind", (RELAYED, RECORDS), SOUND, LEFT_BEHIND),
    ("two relays", (RELAYED_TWICE, RECORDS), SOUND, TWO_RELAYS),
    (
        "one of two forgets",
        (RELAYED_TWICE, RECORDS),
        SOUND,
        ONE_OF_TWO,
    ),
    ("beside each other", (BESIDE, RECORDS), SOUND, EITHER),
];

#[test]
fn messages_pass_their_relays_in_order(rt: HostRuntime) {
    all_hold(&rt, rt.alloc(), &RELAYS);
}
