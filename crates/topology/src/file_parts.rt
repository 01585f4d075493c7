//! The parts that a topology file states, before its rules are tried.
ghost use Rattle.std.specs.Prelude.{◌≡◌, IfOk};

use crate::parts::{ComputationPart, InjectorPart, Parts, ReadingPart};
use crate::publishers::Publisher;
use mw_types::{Duplicate, Key, KeyList, Kind, Name, NoMemory, Seq};
use std::alloc::Global;
use std::marker::Model;

/// A computation whose numbers may be out of range, and whose cuts may be any texts.
#[derive(Drop)]
pub struct FileComputation {
    pub name: Name,
    pub kind: Kind,
    pub reads: Seq<ReadingPart>,
    pub stream: Name,
    pub cuts: Seq<Name>,
    pub weak: bool,
}

impl Model for FileComputation {
    ghost use Rattle.topology.specs.Shapes.{ComputationShape};

    ghost Value = { ComputationShape };

    ghost view = { λ c. record {
      name = c.name;
      kind = c.kind;
      reads = c.reads;
      stream = c.stream;
      cuts = c.cuts;
      weak = c.weak;
    } };
}

/// All parts of a file, injectors first.
#[derive(Drop)]
pub struct FileParts {
    pub injectors: Seq<InjectorPart>,
    pub computations: Seq<FileComputation>,
}

impl Model for FileParts {
    ghost use Rattle.topology.specs.Shapes.{Shape};

    ghost Value = { Shape };

    ghost view = { λ p. record { injectors = p.injectors; computations = p.computations } };
}

impl Publisher for FileComputation {
    ghost use Rattle.topology.specs.Shapes.{ComputationShape};

    ghost called = { λ (c : ComputationShape). c.name };

    ghost published = { λ (c : ComputationShape). c.stream };

    fn name(&self) -> &Name {
        &self.name
    }

    fn stream(&self) -> &Name {
        &self.stream
    }
}

impl FileComputation {
    /// What it does.
    pub fn kind(&self) -> Kind
        ensures { result ≡ self.now.kind }
    {
        self.kind
    }

    /// What it reads.
    pub fn reads(&self) -> &[ReadingPart]
        ensures { result.now ≡ self.now.reads }
    {
        self.reads.as_slice()
    }

    /// Its cuts.
    pub fn cuts(&self) -> &[Name]
        ensures { result.now ≡ self.now.cuts }
    {
        self.cuts.as_slice()
    }
}

impl FileParts {
    /// The injectors.
    pub fn injectors(&self) -> &[InjectorPart]
        ensures { result.now ≡ self.now.injectors }
    {
        self.injectors.as_slice()
    }

    /// The computations.
    pub fn computations(&self) -> &[FileComputation]
        ensures { result.now ≡ self.now.computations }
    {
        self.computations.as_slice()
    }
}

/// The parts of a topology that a file states.
pub fn parts_in(alloc: Global, file: &FileParts) -> Result<Parts, NoMemory>
    ensures { IfOk result (λ parts. parts ≡ file.now) }
{
    let injectors = file.injectors.copy(alloc)?;
    let computations = computations_in(alloc, file.computations())?;
    Ok(Parts {
        injectors,
        computations,
    })
}

// These computations, with keys as cuts.
fn computations_in(
    alloc: Global,
    computations: &[FileComputation],
) -> Result<Seq<ComputationPart>, NoMemory>
    ensures { IfOk result (λ made. made ≡ computations.now) }
{
    let mut made = Seq::new(alloc);
    for computation in computations {
        made.push(computation_part(alloc, computation)?)?;
    }
    Ok(made)
}

// A computation, with keys as cuts.
fn computation_part(
    alloc: Global,
    computation: &FileComputation,
) -> Result<ComputationPart, NoMemory>
    ensures { IfOk result (λ made. made ≡ computation.now) }
{
    let (name, stream) = names_of(alloc, computation)?;
    let (reads, cuts) = lists_of(alloc, computation)?;
    Ok(ComputationPart {
        name,
        kind: computation.kind,
        reads,
        stream,
        cuts,
        weak: computation.weak,
    })
}

// Its name and its stream.
fn names_of(alloc: Global, computation: &FileComputation) -> Result<(Name, Name), NoMemory>
    ensures name { IfOk result (λ names. names.0 ≡ computation.now.name) }
    ensures stream { IfOk result (λ names. names.1 ≡ computation.now.stream) }
{
    let name = computation.name.copy(alloc)?;
    let stream = computation.stream.copy(alloc)?;
    Ok((name, stream))
}

// What it reads, and its cuts as keys.
fn lists_of(
    alloc: Global,
    computation: &FileComputation,
) -> Result<(Seq<ReadingPart>, KeyList), NoMemory>
    ensures reads { IfOk result (λ lists. lists.0 ≡ computation.now.reads) }
    ensures cuts { IfOk result (λ lists. lists.1 ≡ computation.now.cuts) }
{
    let reads = computation.reads.copy(alloc)?;
    let cuts = cuts_in(alloc, computation.cuts())?;
    Ok((reads, cuts))
}

// The keys of these texts.
fn cuts_in(alloc: Global, cuts: &[Name]) -> Result<KeyList, NoMemory>
    ensures { IfOk result (λ made. made ≡ cuts.now) }
{
    let mut made = Seq::new(alloc);
    for cut in cuts {
        // The rules have been tried, and each cut has the length of a key.
        made.push(Key::of(alloc, cut.text()).map_err(|_| NoMemory)?)?;
    }
    Ok(made)
}
