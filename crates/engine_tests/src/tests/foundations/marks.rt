//! The oldest of some stamps, and what feeds an interval, with values that were worked out by hand.
ghost use Rattle.std.specs.Prelude.{length, ◌≡◌};
ghost use Rattle.topology.specs.Shapes.{injectors_of};

use super::{DoneWith, are, done, made};
use injector::{Items, ItemsList};
use mw_types::{END, NoMemory};
use run_history::Case;
use std::alloc::Global;
use std::mem::replace;
use std::process::Abort;
use topology::{Topology, read};
use watermark::{Oldest, feeding, inputs, low};

// What is done with stamps, or seen of them.
enum Deed {
    // There is none.
    Begin,
    // A stamp is added.
    Add(u64),
    // Another is there for a while.
    Visit(u64),
    // This is the least, which is removed, if there is one.
    Take(u64),
    // This is the least.
    Least(u64),
}

// What is done with stamps, one after another.
static DEEDS: [Deed; 15] = [
    // The least is held as often as it was added.
    Deed::Add(5),
    Deed::Add(3),
    Deed::Add(3),
    Deed::Take(3),
    Deed::Take(3),
    Deed::Take(5),
    Deed::Take(END),
    // It stays the least after a later one, and after an earlier one.
    Deed::Begin,
    Deed::Add(5),
    Deed::Add(3),
    Deed::Add(3),
    Deed::Visit(4),
    Deed::Least(3),
    Deed::Visit(2),
    Deed::Least(3),
];

// Removes the least stamp, if there is one.
fn remove_least(oldest: &mut Oldest) {
    let least = oldest.least();
    if least < END {
        oldest.remove(least);
    }
}

// Adds a stamp, and removes it again.
fn add_and_remove(oldest: &mut Oldest, stamp: u64) -> Result<(), NoMemory> {
    oldest.add(stamp)?;
    oldest.remove(stamp);
    Ok(())
}

impl DoneWith<Oldest> for Deed {
    fn is_done<R: Abort>(&self, rt: &R, alloc: Global, oldest: &mut Oldest) -> bool {
        match self {
            Deed::Begin => drop(replace(oldest, Oldest::new(alloc))),
            Deed::Add(stamp) => made(rt, oldest.add(*stamp)),
            Deed::Visit(stamp) => made(rt, add_and_remove(oldest, *stamp)),
            Deed::Take(want) => {
                let least = oldest.least();
                remove_least(oldest);
                return least == *want;
            }
            Deed::Least(want) => return oldest.least() == *want,
        }
        true
    }
}

#[test]
fn the_least_stamp_is_held_as_often_as_it_was_added(rt: HostRuntime) {
    drop(done(&rt, rt.alloc(), Oldest::new(rt.alloc()), &DEEDS));
}

// One injector, and a count that is cut at h and at q.
const CUT: &str =
    "{\"injectors\":[{\"name\":\"clicks\",\"stream\":\"raw\"}],\"computations\":[{\"name\":\"per_minute\",\"kind\":\"count\",\"size\":60,\"reads\":[{\"stream\":\"raw\",\"by\":\"key\"}],\"stream\":\"windows\",\"cuts\":[\"h\",\"q\"]}]}";

// One injector, a count, and a spike that reads the count's stream.
const CHAIN: &str =
    "{\"injectors\":[{\"name\":\"clicks\",\"stream\":\"raw\"}],\"computations\":[{\"name\":\"per_minute\",\"kind\":\"count\",\"size\":60,\"reads\":[{\"stream\":\"raw\",\"by\":\"key\"}],\"stream\":\"windows\"},{\"name\":\"spikes\",\"kind\":\"spike\",\"last\":2,\"times\":3,\"reads\":[{\"stream\":\"windows\",\"by\":\"key\"}],\"stream\":\"alerts\"}]}";

/// The case of a topology, whose injectors have no lines.
pub(super) fn case_of(rt: &impl Abort, alloc: Global, topology: Topology) -> Case {
    let items = no_lines(rt, alloc, &topology);
    made(rt, Case::of(alloc, topology, items))
}

// No lines for each injector.
fn no_lines(rt: &impl Abort, alloc: Global, topology: &Topology) -> ItemsList
    ensures { length result ≡ injectors_of topology.now }
{
    let mut items = ItemsList::new(alloc);
    for _ in 0..topology.injectors() {
        made(rt, items.push(Items::new(alloc)));
    }
    items
}

// What is asked of a case.
enum Asked {
    // It is that of this topology file.
    Of(&'static str),
    // These feed an interval.
    Fed(u32, &'static [u32]),
    // This is the least mark of a part, where these are the marks of the intervals.
    Low(u32, [u64; 4], u64),
    // This is the least mark of what feeds an interval.
    Inputs(u32, [u64; 4], u64),
}

// What is asked of two topologies. The slowest interval holds its part, and the injector each interval of its
// count.
static ASKED: [Asked; 15] = [
    // The count feeds the spike.
    Asked::Of(CHAIN),
    Asked::Fed(1, &[0]),
    Asked::Fed(2, &[1]),
    // Nothing feeds an injector, which feeds each part of the count.
    Asked::Of(CUT),
    Asked::Fed(0, &[]),
    Asked::Fed(1, &[0]),
    Asked::Fed(2, &[0]),
    Asked::Fed(3, &[0]),
    // The marks of the injector and of the count, and those at the end.
    Asked::Low(0, [9, 4, 7, 6], 9),
    Asked::Low(1, [9, 4, 7, 6], 4),
    Asked::Low(1, [0, END, END, END], END),
    // The inputs of the injector, and of each part.
    Asked::Inputs(0, [9, 4, 7, 6], END),
    Asked::Inputs(1, [9, 4, 7, 6], 9),
    Asked::Inputs(2, [9, 4, 7, 6], 9),
    Asked::Inputs(3, [9, 4, 7, 6], 9),
];

impl DoneWith<Case> for Asked {
    // Whether a case answers so. An interval and a part that it is asked of are there, and so is a mark for each
    // interval.
    fn is_done<R: Abort>(&self, rt: &R, alloc: Global, case: &mut Case) -> bool {
        let count = case.interval_count();
        match self {
            Asked::Of(text) => {
                let topology = made(rt, read(alloc, text.as_bytes()));
                drop(replace(case, case_of(rt, alloc, topology)));
                true
            }
            Asked::Fed(interval, feeds) => {
                *interval < count && are(made(rt, feeding(alloc, case, *interval)), feeds)
            }
            Asked::Low(part, marks, want) => {
                count == 4 && *part < case.topology.parts() && low(case, *part, marks) == *want
            }
            Asked::Inputs(interval, marks, want) => {
                count == 4 && *interval < count && inputs(case, *interval, marks) == *want
            }
        }
    }
}

#[test]
fn the_slowest_interval_holds_its_part_and_what_it_feeds(rt: HostRuntime) {
    let alloc = rt.alloc();
    let case = case_of(&rt, alloc, made(&rt, Topology::one_count(alloc, 60)));
    drop(done(&rt, alloc, case, &ASKED));
}
