//! What a topology tells of its parts. No helper has a clause, so that no test carries what the calls
//! before have told.
use super::changes::FILE;
use crate::tests::foundations::{DoneWith, are_equal, done, length_of, made};
use mw_types::{Kind, KindTable};
use std::alloc::Global;
use std::process::Abort;
use topology::{By, Subscription, Topology, read};

// What a topology tells.
enum Told {
    // How many parts there are, and how many of them are injectors.
    Counts([u32; 2]),
    // How many parts have cuts listed.
    Listed(usize),
    // The kind of a computation.
    Kind(u32, Kind),
    // The stream that a part publishes, and how many cuts it has.
    Stream(u32, &'static str, usize),
    // Who subscribes to the stream of a part.
    Consumers(u32, &'static [Subscription]),
    // Which parts a part reads.
    Feeds(u32, &'static [u32]),
}

// What that of the file tells.
static TOLD: [Told; 12] = [
    Told::Counts([4, 1]),
    Told::Listed(4),
    Told::Kind(1, Kind::Count { size: 60 }),
    Told::Kind(2, Kind::Spike { last: 2, times: 3 }),
    Told::Kind(3, Kind::Pass),
    Told::Stream(0, "raw", 0),
    Told::Stream(1, "windows", 2),
    Told::Stream(2, "alerts", 0),
    Told::Stream(3, "copies", 0),
    Told::Consumers(
        0,
        &[
            Subscription { to: 1, by: By::Key },
            Subscription { to: 2, by: By::Key },
            Subscription {
                to: 3,
                by: By::Tail,
            },
        ],
    ),
    Told::Consumers(
        1,
        &[Subscription {
            to: 2,
            by: By::Head,
        }],
    ),
    Told::Feeds(2, &[0, 1]),
];

impl DoneWith<Topology> for Told {
    // Whether a topology tells this. A part that it speaks of is there.
    fn is_done<R: Abort>(&self, rt: &R, alloc: Global, topology: &mut Topology) -> bool {
        let parts = topology.parts();
        match self {
            Told::Counts(want) => [parts, topology.injectors()] == *want,
            Told::Listed(count) => length_of(made(rt, topology.part_cuts(alloc))) == *count,
            Told::Kind(part, kind) => {
                topology.injectors() <= *part && *part < parts && topology.kind(*part) == *kind
            }
            Told::Stream(part, stream, cuts) => {
                *part < parts
                    && are_equal(topology.stream(*part).as_bytes(), stream.as_bytes())
                    && topology.cuts(*part).len() == *cuts
            }
            Told::Consumers(part, want) => *part < parts
                && are_equal(topology.consumers(*part), want),
            Told::Feeds(part, want) => *part < parts && are_equal(topology.feeds(*part), want),
        }
    }
}

#[test]
fn a_file_of_each_kind_is_read(rt: HostRuntime) {
    let topology = made(&rt, read(rt.alloc(), FILE.as_bytes()));
    drop(done(&rt, rt.alloc(), topology, &TOLD));
}
