//! Of which intervals a worker has a lease.
ghost use Rattle.std.specs.Prelude.{◌<◌, ◌≤◌};
ghost use Rattle.topology.specs.Rules.{interval_count};

use crate::counts::intervals_in;
use book::Seen;
use node::Node;
use run_history::Case;

// Of how many intervals it has a lease.
pub(crate) fn held_in<N: Seen>(node: &Node<N>, case: &Case) -> u32
    ensures few { result ≤ 61 }
{
    let intervals = intervals_in(case);
    let mut held = 0u32;
    for interval in 0..intervals {
        held += u32::from(node.holds(interval));
    }
    held
}

// Whether an interval is one of a part.
pub(crate) fn is_of(case: &Case, interval: u32, part: u32) -> bool
    requires there { interval < interval_count case.now.topology }
{
    let _count = case.interval_count();
    case.bounds(interval).part == part
}

// Of how many intervals of a part it has a lease.
pub(crate) fn held_of<N: Seen>(node: &Node<N>, case: &Case, part: u32) -> u32
    ensures few { result ≤ 61 }
{
    let intervals = intervals_in(case);
    let mut held = 0u32;
    for interval in 0..intervals {
        held += u32::from(node.holds(interval) && is_of(case, interval, part));
    }
    held
}
