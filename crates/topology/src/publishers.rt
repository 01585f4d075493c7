//! What parts are called and what they publish, by number.
ghost use Rattle.std.specs.Prelude.{◌≡◌, ◌++◌, ℕ, List, map, IfOk, OnOk};
ghost use Rattle.topology.specs.Shapes.{InjectorShape};

use crate::parts::InjectorPart;
use mw_types::{Duplicate, Name, NoMemory, Seq};
use std::alloc::Global;

/// What publishes a stream and has a name: a part of a topology, or of a file.
pub trait Publisher {
    /// Its name.
    ghost called: { Self → List ℕ };

    /// Its stream.
    ghost published: { Self → List ℕ };

    /// Its name.
    fn name(&self) -> &Name
        ensures name { result.now ≡ called self.now };

    /// The stream that it publishes.
    fn stream(&self) -> &Name
        ensures stream { result.now ≡ published self.now };
}

// Adds the names of these parts.
fn add_names<P: Publisher>(
    alloc: Global,
    names: &mut Seq<Name>,
    parts: &[P],
) -> Result<(), NoMemory>
    ensures added { OnOk result (names.new ≡ names.old ++ map P.called parts.now) }
{
    for part in parts {
        names.push(part.name().copy(alloc)?)?;
    }
    Ok(())
}

// Adds the streams of these parts.
fn add_streams<P: Publisher>(
    alloc: Global,
    streams: &mut Seq<Name>,
    parts: &[P],
) -> Result<(), NoMemory>
    ensures added { OnOk result (streams.new ≡ streams.old ++ map P.published parts.now) }
{
    for part in parts {
        streams.push(part.stream().copy(alloc)?)?;
    }
    Ok(())
}

/// The names of the parts, by number.
pub fn names_in<P: Publisher>(
    alloc: Global,
    injectors: &[InjectorPart],
    computations: &[P],
) -> Result<Seq<Name>, NoMemory>
    ensures names { IfOk result (λ names. names
        ≡ map (λ (i : InjectorShape). i.name) injectors.now ++ map P.called computations.now) }
{
    let mut names = Seq::new(alloc);
    add_names(alloc, &mut names, injectors)?;
    add_names(alloc, &mut names, computations)?;
    Ok(names)
}

/// The streams of the parts, by number.
pub fn streams_in<P: Publisher>(
    alloc: Global,
    injectors: &[InjectorPart],
    computations: &[P],
) -> Result<Seq<Name>, NoMemory>
    ensures streams { IfOk result (λ streams. streams
        ≡ map (λ (i : InjectorShape). i.stream) injectors.now ++ map P.published computations.now) }
{
    let mut streams = Seq::new(alloc);
    add_streams(alloc, &mut streams, injectors)?;
    add_streams(alloc, &mut streams, computations)?;
    Ok(streams)
}
