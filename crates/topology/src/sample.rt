//! The topology of the first run.
ghost use Rattle.std.specs.Prelude.{◌≡◌, ◌≤◌, ◌^◌, ◌∷◌, [], codes, IfOk};
ghost use Rattle.topology.specs.Samples.{clicks_shape, per_minute_shape, one_count};

use crate::parts::{ComputationPart, InjectorPart, Parts, ReadingPart};
use crate::subscription::By;
use crate::topology::Topology;
use mw_types::{Kind, Name, NoMemory, Seq};
use std::alloc::Global;

impl Topology {
    /// One injector, and one count over windows of this size, in whole microseconds, that reads its
    /// stream by key. Serves tests and examples alone, to which it spares a file; a run gets its
    /// topology from `read`.
    pub fn one_count(alloc: Global, size: u64) -> Result<Topology, NoMemory>
        requires some { 1 ≤ size }
        requires most { size ≤ 2 ^ 40 }
        ensures shape { IfOk result (λ topology. topology ≡ one_count size) }
    {
        let parts = parts(alloc, size)?;
        Topology::of(alloc, parts)
    }
}

// A list of one element.
fn list_of<X: Drop>(alloc: Global, x: X) -> Result<Seq<X>, NoMemory>
    ensures list { IfOk result (λ list. list ≡ x ∷ []) }
{
    let mut list = Seq::new(alloc);
    list.push(x)?;
    Ok(list)
}

// Its parts.
fn parts(alloc: Global, size: u64) -> Result<Parts, NoMemory>
    ensures { IfOk result (λ made. made ≡ one_count size) }
{
    let injectors = list_of(alloc, clicks(alloc)?)?;
    let computations = list_of(alloc, per_minute(alloc, size)?)?;
    Ok(Parts {
        injectors,
        computations,
    })
}

// Its injector.
fn clicks(alloc: Global) -> Result<InjectorPart, NoMemory>
    ensures { IfOk result (λ made. made ≡ clicks_shape) }
{
    Ok(InjectorPart {
        name: Name::of(alloc, "clicks")?,
        stream: Name::of(alloc, "raw")?,
    })
}

// What its count reads.
fn raw_by_key(alloc: Global) -> Result<ReadingPart, NoMemory>
    ensures { IfOk result (λ made. made ≡ record { stream = codes "raw"; by = By.Key }) }
{
    Ok(ReadingPart {
        stream: Name::of(alloc, "raw")?,
        by: By::Key,
    })
}

// What its count and the stream of that are called.
fn names(alloc: Global) -> Result<(Name, Name), NoMemory>
    ensures name { IfOk result (λ names. names.0 ≡ codes "per_minute") }
    ensures stream { IfOk result (λ names. names.1 ≡ codes "windows") }
{
    let name = Name::of(alloc, "per_minute")?;
    let stream = Name::of(alloc, "windows")?;
    Ok((name, stream))
}

// Its count.
fn per_minute(alloc: Global, size: u64) -> Result<ComputationPart, NoMemory>
    ensures { IfOk result (λ made. made ≡ per_minute_shape size) }
{
    let reads = list_of(alloc, raw_by_key(alloc)?)?;
    let (name, stream) = names(alloc)?;
    Ok(ComputationPart {
        name,
        kind: Kind::Count { size },
        reads,
        stream,
        cuts: Seq::new(alloc),
        weak: false,
    })
}
