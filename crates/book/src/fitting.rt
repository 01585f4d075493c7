//! Whether a row fits its name.
ghost use Rattle.std.specs.Prelude.{◌≡◌, ◌<◌, length};
ghost use Rattle.std.specs.List.{list_all};
ghost use Rattle.topology.specs.Shapes.{injectors_of};
ghost use Rattle.run_history.specs.Cases.{source_of};
ghost use Rattle.run_history.specs.Fits.{fits, is_cursor_within, is_sent_before, suits_part};
ghost use Rattle.computations.specs.Handlers.{has_kind};

use mw_types::{Delivery, Kind, RowName, State};
use row_parts::Row;
use run_history::Case;
use topology::Topology;

/// Whether a row fits its name, after a history of this length.
pub(crate) fn fits(case: &Case, number: u64, name: &RowName, row: &Row) -> bool
    ensures { result ≡ fits case.now number name.now row.now }
{
    suits_part(case, name.part, row)
        && are_sent_before(&case.topology, number, row.pending.as_slice())
}

// Whether a row's state and timers are those of a part.
fn suits_part(case: &Case, part: u32, row: &Row) -> bool
    ensures { result ≡ suits_part case.now part row.now }
{
    if part < case.topology.injectors() {
        is_cursor_within(lines(case, part), &row.state) && row.timers.is_empty()
    } else if part < case.topology.parts() {
        has_kind(case.topology.kind(part), &row.state)
    } else {
        false
    }
}

// How many lines an injector has.
pub(crate) fn lines(case: &Case, part: u32) -> u32
    requires { part < injectors_of case.now.topology }
    ensures { result ≡ length (source_of case.now part) }
{
    case.items.as_slice()[part as usize].count()
}

// Whether a state is an injector's, which has injected no more lines than these.
fn is_cursor_within(lines: u32, state: &State) -> bool
    ensures { result ≡ is_cursor_within lines state.now }
{
    match state {
        State::Injector { cursor } => *cursor <= lines,
        _ => false,
    }
}

// Whether a state is one of this kind of computation.
fn has_kind(kind: Kind, state: &State) -> bool
    ensures { result ≡ has_kind kind state.now }
{
    match kind {
        Kind::Count { size: _ } => matches!(state, State::Count { .. }),
        Kind::Spike { last: _, times: _ } => matches!(state, State::Spike { .. }),
        Kind::Pass => matches!(state, State::Pass { .. }),
    }
}

// Whether each of these was made by an entry before this number, and goes to a computation.
fn are_sent_before(topology: &Topology, number: u64, pending: &[Delivery]) -> bool
    ensures { result ≡ list_all (is_sent_before topology.now number) pending.now }
{
    let injectors = topology.injectors();
    let parts = topology.parts();
    pending.iter().all(|d| d.id.commit < number && injectors <= d.to.part && d.to.part < parts)
}
