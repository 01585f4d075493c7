//! The numbers up to which a topology file goes.
use crate::tests::foundations::all_hold;
use crate::tests::foundations::topologies::changes::Source;
use topology::TopologyRefusal;

// A row of the table: injectors, counts, readings of each count and cuts of the first, and the refusal.
static SIZES: [(Source, Option<TopologyRefusal>); 13] = [
    (Source::Sized([1, 1, 1, 59]), None),
    (Source::Sized([1, 1, 1, 60]), Some(TopologyRefusal::TooMany)),
    (Source::Sized([0, 1, 1, 0]), Some(TopologyRefusal::BadShape)),
    (Source::Sized([16, 1, 1, 0]), None),
    (Source::Sized([17, 1, 1, 0]), Some(TopologyRefusal::TooMany)),
    (Source::Sized([1, 0, 1, 0]), None),
    (Source::Sized([1, 32, 1, 0]), None),
    (Source::Sized([1, 33, 1, 0]), Some(TopologyRefusal::TooMany)),
    (Source::Sized([1, 32, 2, 0]), None),
    (Source::Sized([1, 13, 5, 0]), Some(TopologyRefusal::TooMany)),
    (Source::Sized([1, 1, 64, 0]), None),
    (Source::Sized([16, 32, 1, 13]), None),
    (
        Source::Sized([16, 32, 1, 14]),
        Some(TopologyRefusal::TooMany),
    ),
];

// Without its weak passes a topology has at most 64 readings. Of 31 weak passes it would have 2^31.
static DOUBLED: [(Source, Option<TopologyRefusal>); 4] = [
    (Source::Doubled(6, 0), None),
    (Source::Doubled(6, 1), Some(TopologyRefusal::BadWeak)),
    (Source::Doubled(7, 0), Some(TopologyRefusal::BadWeak)),
    (Source::Doubled(31, 0), Some(TopologyRefusal::BadWeak)),
];

// A computation of a kind that has no numbers.
const PASS: &str = r#""kind":"pass""#;

// The members of a computation beside others, the lengths of what it has, and why its file is refused, if it is.
static LONG: [(Source, Option<TopologyRefusal>); 20] = [
    // A name has at most 64 bytes, and a cut 256.
    (Source::Long(PASS, [0, 0, 0]), None),
    (Source::Long(PASS, [63, 0, 0]), None),
    (
        Source::Long(PASS, [64, 0, 0]),
        Some(TopologyRefusal::BadName),
    ),
    (Source::Long(PASS, [0, 63, 0]), None),
    (
        Source::Long(PASS, [0, 64, 0]),
        Some(TopologyRefusal::BadName),
    ),
    (Source::Long(PASS, [0, 0, 255]), None),
    (
        Source::Long(PASS, [0, 0, 256]),
        Some(TopologyRefusal::BadCuts),
    ),
    // A size is a whole number from 1 to 2^40, `last` one from 1 to 64, and `times` one from 1 to 1,000.
    (Source::Long(r#""kind":"count","size":1"#, [0, 0, 0]), None),
    (
        Source::Long(r#""kind":"count","size":1099511627776"#, [0, 0, 0]),
        None,
    ),
    (
        Source::Long(r#""kind":"count","size":1099511627777"#, [0, 0, 0]),
        Some(TopologyRefusal::BadNumber),
    ),
    (
        Source::Long(r#""kind":"count","size":0"#, [0, 0, 0]),
        Some(TopologyRefusal::BadNumber),
    ),
    (
        Source::Long(r#""kind":"count","size":60.0"#, [0, 0, 0]),
        Some(TopologyRefusal::BadNumber),
    ),
    (
        Source::Long(r#""kind":"count","size":6e1"#, [0, 0, 0]),
        Some(TopologyRefusal::BadNumber),
    ),
    (
        Source::Long(r#""kind":"spike","last":1,"times":1"#, [0, 0, 0]),
        None,
    ),
    (
        Source::Long(r#""kind":"spike","last":64,"times":1000"#, [0, 0, 0]),
        None,
    ),
    (
        Source::Long(r#""kind":"spike","last":0,"times":1"#, [0, 0, 0]),
        Some(TopologyRefusal::BadNumber),
    ),
    (
        Source::Long(r#""kind":"spike","last":65,"times":1"#, [0, 0, 0]),
        Some(TopologyRefusal::BadNumber),
    ),
    (
        Source::Long(r#""kind":"spike","last":1,"times":0"#, [0, 0, 0]),
        Some(TopologyRefusal::BadNumber),
    ),
    (
        Source::Long(r#""kind":"spike","last":1,"times":1001"#, [0, 0, 0]),
        Some(TopologyRefusal::BadNumber),
    ),
    (
        Source::Long(r#""kind":"spike","last":1,"times":1e3"#, [0, 0, 0]),
        Some(TopologyRefusal::BadNumber),
    ),
];

#[test]
fn a_topology_goes_up_to_its_numbers(rt: HostRuntime) {
    all_hold(&rt, rt.alloc(), &SIZES);
    all_hold(&rt, rt.alloc(), &DOUBLED);
    all_hold(&rt, rt.alloc(), &LONG);
}
