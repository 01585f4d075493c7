//! Cases that are read from texts: a topology of one injector, and its event file.
ghost use Rattle.std.specs.Prelude.{◌≡◌, length};
ghost use Rattle.topology.specs.Shapes.{injectors_of};
ghost use Rattle.world.specs.scripts.WorldStates.{IsFolding};

use crate::tests::made;
use injector::{Items, ItemsList, read_lines};
use run_history::Case;
use std::alloc::Global;
use std::process::Abort;
use topology::{Folded, Routes, Topology, read};

/// One count over windows of 60.
pub const COUNT: &str =
    r#"{"injectors":[{"name":"clicks","stream":"raw"}],"computations":[{"name":"per_minute","kind":"count","size":60,"reads":[{"stream":"raw","by":"key"}],"stream":"windows"}]}
"#;

/// Two records in the window that ends at 60, and one in the next.
pub const RECORDS: &str = r#"{"key":"a","ts":10}
{"key":"a","ts":59}
{"key":"a","ts":60}
"#;

/// A record in the window that ends at 60, the end of that window, and a record in the next.
pub const TWO: &str = r#"{"key":"a","ts":10}
{"watermark":60}
{"key":"a","ts":70}
"#;

// The topology of a text, which has one injector.
fn topology_of(rt: &impl Abort, alloc: Global, text: &str) -> Topology
    ensures { injectors_of result ≡ 1 }
{
    let topology = made(rt, read(alloc, text.as_bytes()));
    if topology.injectors() != 1 {
        rt.panic("the topology has other injectors");
    }
    topology
}

/// The lines of an event file.
pub(crate) fn lines(rt: &impl Abort, alloc: Global, events: &str) -> Items {
    let bytes = events.as_bytes();
    if bytes.len() > 1 << 20 {
        rt.panic("the events are too long");
    }
    made(rt, read_lines(alloc, bytes, 1 << 18))
}

/// The case of a topology of one injector over this event file, without its weak computations.
pub(crate) fn case(rt: &impl Abort, alloc: Global, topology: &str, events: &str) -> Case {
    let (case, routes) = folded_case(rt, alloc, topology, events);
    drop(routes);
    case
}

/// The same case, and the routes of its records over the weak computations that were left out.
pub(crate) fn folded_case(
    rt: &impl Abort,
    alloc: Global,
    topology: &str,
    events: &str,
) -> (Case, Routes)
    ensures { IsFolding result.0.topology result.1 }
{
    let items = items(rt, alloc, events);
    let file = topology_of(rt, alloc, topology);
    let Folded { topology, routes } = made(rt, file.fold(alloc));
    drop(file);
    (made(rt, Case::of(alloc, topology, items)), routes)
}

// The lines of an event file, as those of the one injector.
fn items(rt: &impl Abort, alloc: Global, events: &str) -> ItemsList
    ensures { length result ≡ 1 }
{
    let lines = lines(rt, alloc, events);
    let mut items = ItemsList::new(alloc);
    made(rt, items.push(lines));
    items
}
