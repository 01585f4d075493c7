//! How many parts and intervals a case has.
ghost use Rattle.std.specs.Prelude.{◌≡◌, ◌≤◌, length};
ghost use Rattle.run_history.specs.Cases.{intervals_of};
ghost use Rattle.topology.specs.Rules.{IsTopology, interval_count};
ghost use Rattle.topology.specs.Shapes.{injectors_of, parts_of};

use run_history::Case;

// How many intervals there are.
pub(crate) fn intervals_in(case: &Case) -> u32
    ensures count { result ≡ interval_count case.now.topology }
    ensures all { result ≡ length (intervals_of case.now.topology) }
    ensures few { result ≤ 61 }
{
    let _parts = case.topology.parts();
    case.interval_count()
}

// How many parts there are.
pub(crate) fn parts_in(case: &Case) -> u32
    ensures count { result ≡ parts_of case.now.topology }
    ensures few { result ≤ 61 }
{
    case.topology.parts()
}

// How many parts are injectors.
pub(crate) fn injectors_in(case: &Case) -> u32
    ensures count { result ≡ injectors_of case.now.topology }
    ensures few { result ≤ 16 }
{
    let _parts = case.topology.parts();
    case.topology.injectors()
}

// A case's topology keeps the rules of topologies.
pub(crate) fn keeps_rules(case: &Case)
    ensures rules { IsTopology case.now.topology }
{
    let _parts = case.topology.parts();
}
