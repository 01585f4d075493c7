//! Topologies and worlds of the tests.
ghost use Rattle.std.specs.Prelude.{◌≤◌, ◌^◌};
ghost use Rattle.node.specs.Works.{IsWorkOf};
ghost use Rattle.computations.specs.Parts.{part_doings};
ghost use Rattle.world.specs.scripts.WorldStates.{IsFolding};

use crate::tests::made;
use book::Book;
use computations::Kinds;
use mw_types::{Duplicate, NoMemory};
use row_keeper::Keeper;
use run_history::Case;
use std::alloc::Global;
use std::process::Abort;
use topology::Routes;
use world::World;

/// A count over windows of 3600, of what a count over windows of 60 makes.
pub const CHAIN: &str =
    r#"{"injectors":[{"name":"clicks","stream":"raw"}],"computations":[{"name":"per_minute","kind":"count","size":60,"reads":[{"stream":"raw","by":"key"}],"stream":"windows"},{"name":"per_hour","kind":"count","size":3600,"reads":[{"stream":"windows","by":"key"}],"stream":"hours"}]}
"#;

/// A count over windows of 60, of what passes a weak computation.
pub const RELAYED: &str =
    r#"{"injectors":[{"name":"clicks","stream":"raw"}],"computations":[{"name":"near","kind":"pass","weak":true,"reads":[{"stream":"raw","by":"key"}],"stream":"mid"},{"name":"per_minute","kind":"count","size":60,"reads":[{"stream":"mid","by":"key"}],"stream":"windows"}]}
"#;

/// The same, where one weak computation stands behind another.
pub const RELAYED_TWICE: &str =
    r#"{"injectors":[{"name":"clicks","stream":"raw"}],"computations":[{"name":"near","kind":"pass","weak":true,"reads":[{"stream":"raw","by":"key"}],"stream":"mid"},{"name":"far","kind":"pass","weak":true,"reads":[{"stream":"mid","by":"key"}],"stream":"end"},{"name":"per_minute","kind":"count","size":60,"reads":[{"stream":"end","by":"key"}],"stream":"windows"}]}
"#;

/// A count over windows of 60, of what passes either of two weak computations beside each other.
pub const BESIDE: &str =
    r#"{"injectors":[{"name":"clicks","stream":"raw"}],"computations":[{"name":"near","kind":"pass","weak":true,"reads":[{"stream":"raw","by":"key"}],"stream":"mid"},{"name":"far","kind":"pass","weak":true,"reads":[{"stream":"raw","by":"key"}],"stream":"end"},{"name":"per_minute","kind":"count","size":60,"reads":[{"stream":"mid","by":"key"},{"stream":"end","by":"key"}],"stream":"windows"}]}
"#;

/// A count over windows of 60, of what is passed on.
pub const PASSED: &str =
    r#"{"injectors":[{"name":"clicks","stream":"raw"}],"computations":[{"name":"copy","kind":"pass","reads":[{"stream":"raw","by":"key"}],"stream":"copies"},{"name":"per_minute","kind":"count","size":60,"reads":[{"stream":"copies","by":"key"}],"stream":"windows"}]}
"#;

/// How many entries a history may have at most.
pub const MOST: u64 = 1 << 32;

// The computations of a case.
fn work(rt: &impl Abort, alloc: Global, case: &Case) -> Kinds
    ensures { IsWorkOf case.now.topology (part_doings result) }
{
    match Kinds::of(alloc, &case.topology) {
        Ok(kinds) => kinds,
        Err(NoMemory) => rt.panic("no computations were made"),
    }
}

// A world over a new book of a case, which takes so many entries, with relays on these routes.
pub(crate) fn world<'a, K: Keeper>(
    rt: &impl Abort,
    alloc: Global,
    case: &'a Case,
    routes: &Routes,
    keeper: K,
    limit: u64,
) -> World<'a, K, Kinds>
    requires limit { limit ≤ 2 ^ 32 }
    requires folding { IsFolding case.now.topology routes.now }
{
    let work = work(rt, alloc, case);
    let book = made(rt, Book::start(alloc, case, keeper, limit));
    let routes = made(rt, routes.copy(alloc));
    made(rt, World::start(alloc, book, work, routes))
}
