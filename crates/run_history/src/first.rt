//! The row of a key to which nothing has happened yet.
ghost use Rattle.std.specs.Prelude.{◌≡◌};
ghost use Rattle.mw_types.specs.Bounds.{IsWithin};
ghost use Rattle.computations.specs.Handlers.{fresh_state};
ghost use Rattle.row_parts.specs.Contents.{fresh};
ghost use Rattle.run_history.specs.Cases.{fresh_of};

use crate::case::Case;
use mw_types::{HeldList, Kind, State, ValueList, WindowList};
use row_parts::Row;
use std::alloc::Global;
use topology::Topology;

/// A row of this part before any entry is on it, which takes no memory.
pub fn first_row(alloc: Global, case: &Case, part: u32) -> Row
    ensures fresh { result ≡ fresh (fresh_of case.now.topology part) }
{
    Row::new(alloc, first_state(alloc, &case.topology, part))
}

// The state that a row of a part has before any entry is on it.
fn first_state(alloc: Global, topology: &Topology, part: u32) -> State
    ensures state { result ≡ fresh_of topology.now part }
    ensures within { IsWithin result }
{
    if part < topology.injectors() || topology.parts() <= part {
        return State::Injector { cursor: 0 };
    }
    fresh_state(alloc, topology.kind(part))
}

// The state of a computation of this kind before anything has happened to it.
fn fresh_state(alloc: Global, kind: Kind) -> State
    ensures { result ≡ fresh_state kind }
{
    match kind {
        Kind::Count { .. } => State::Count {
            late: 0,
            windows: WindowList::new(alloc),
        },
        Kind::Spike { .. } => State::Spike {
            late: 0,
            held: HeldList::new(alloc),
            known: ValueList::new(alloc),
        },
        Kind::Pass => State::Pass { late: 0 },
    }
}
