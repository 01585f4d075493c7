//! The parts of a topology, as its file states them.
ghost use Rattle.std.specs.Prelude.{◌≡◌, ◌+◌, ◌<◌, ◌^◌, length, option_copied};
ghost use Rattle.topology.specs.Shapes.{injectors_of, parts_of, computation_of, reads_of, cuts_of, is_weak};

use crate::publishers::Publisher;
use crate::subscription::By;
use mw_types::{Duplicate, Key, KeyList, Kind, Name, NoMemory, Seq};
use std::alloc::Global;
use std::marker::Model;

/// One reading of a computation: the stream, and how it extracts its keys.
#[derive(Drop)]
pub struct ReadingPart {
    pub stream: Name,
    pub by: By,
}

impl Model for ReadingPart {
    ghost use Rattle.topology.specs.Shapes.{Reading};

    ghost Value = { Reading };

    ghost view = { λ r. record { stream = r.stream; by = r.by } };
}

impl Duplicate for ReadingPart {
    fn copy(&self, alloc: Global) -> Result<ReadingPart, NoMemory> {
        Ok(ReadingPart {
            stream: self.stream.copy(alloc)?,
            by: self.by,
        })
    }
}

/// An injector, with the stream that it publishes.
#[derive(Drop)]
pub struct InjectorPart {
    pub name: Name,
    pub stream: Name,
}

impl Model for InjectorPart {
    ghost use Rattle.topology.specs.Shapes.{InjectorShape};

    ghost Value = { InjectorShape };

    ghost view = { λ i. record { name = i.name; stream = i.stream } };
}

impl Duplicate for InjectorPart {
    fn copy(&self, alloc: Global) -> Result<InjectorPart, NoMemory> {
        Ok(InjectorPart {
            name: self.name.copy(alloc)?,
            stream: self.stream.copy(alloc)?,
        })
    }
}

/// A computation, with what it reads, the stream that it publishes, its cuts, and whether it is weak.
#[derive(Drop)]
pub struct ComputationPart {
    pub name: Name,
    pub kind: Kind,
    pub reads: Seq<ReadingPart>,
    pub stream: Name,
    pub cuts: KeyList,
    pub weak: bool,
}

impl Model for ComputationPart {
    ghost use Rattle.topology.specs.Shapes.{ComputationShape};

    ghost Value = { ComputationShape };

    ghost view = { λ c. record {
      name = c.name;
      kind = c.kind;
      reads = c.reads;
      stream = c.stream;
      cuts = c.cuts;
      weak = c.weak;
    } };
}

/// All parts, injectors first, in the order of the file.
#[derive(Drop)]
pub struct Parts {
    pub injectors: Seq<InjectorPart>,
    pub computations: Seq<ComputationPart>,
}

impl Model for Parts {
    ghost use Rattle.topology.specs.Shapes.{Shape};

    ghost Value = { Shape };

    ghost view = { λ p. record { injectors = p.injectors; computations = p.computations } };
}

impl ReadingPart {
    /// The stream that is read.
    pub fn stream(&self) -> &str
        ensures { result.now ≡ self.now.stream }
    {
        self.stream.text()
    }

    /// How the keys are extracted.
    pub fn by(&self) -> By
        ensures { result ≡ self.now.by }
    {
        self.by
    }
}

impl Publisher for InjectorPart {
    ghost use Rattle.topology.specs.Shapes.{InjectorShape};

    ghost called = { λ (i : InjectorShape). i.name };

    ghost published = { λ (i : InjectorShape). i.stream };

    fn name(&self) -> &Name {
        &self.name
    }

    fn stream(&self) -> &Name {
        &self.stream
    }
}

impl Publisher for ComputationPart {
    ghost use Rattle.topology.specs.Shapes.{ComputationShape};

    ghost called = { λ (c : ComputationShape). c.name };

    ghost published = { λ (c : ComputationShape). c.stream };

    fn name(&self) -> &Name {
        &self.name
    }

    fn stream(&self) -> &Name {
        &self.stream
    }
}

impl ComputationPart {
    /// What it does.
    pub fn kind(&self) -> Kind
        ensures { result ≡ self.now.kind }
    {
        self.kind
    }

    /// What it reads.
    pub fn reads(&self) -> &[ReadingPart]
        ensures { result.now ≡ self.now.reads }
    {
        self.reads.as_slice()
    }

    /// Whether its productions are weak.
    pub fn weak(&self) -> bool
        ensures { result ≡ self.now.weak }
    {
        self.weak
    }

    /// Where its intervals of keys begin, but for the first.
    pub fn cuts(&self) -> &KeyList
        ensures { result.now ≡ self.now.cuts }
    {
        &self.cuts
    }
}

impl Parts {
    /// The injectors.
    pub fn injectors(&self) -> &[InjectorPart]
        ensures { result.now ≡ self.now.injectors }
    {
        self.injectors.as_slice()
    }

    /// The computations.
    pub fn computations(&self) -> &[ComputationPart]
        ensures { result.now ≡ self.now.computations }
    {
        self.computations.as_slice()
    }

    /// How many parts there are.
    pub fn count(&self) -> u32
        requires { parts_of self.now < 2 ^ 32 }
        ensures { result ≡ parts_of self.now }
    {
        (self.injectors.len() + self.computations.len()) as u32
    }

    /// How many parts are injectors.
    pub fn injector_count(&self) -> u32
        requires { parts_of self.now < 2 ^ 32 }
        ensures { result ≡ injectors_of self.now }
    {
        self.injectors.len() as u32
    }

    /// The computation of this number, or none where that part is an injector or is not there.
    pub fn computation(&self, part: u32) -> Option<&ComputationPart>
        requires { parts_of self.now < 2 ^ 32 }
        ensures { option_copied result ≡ computation_of self.now part }
    {
        let injectors = self.injector_count();
        if part < injectors {
            return None;
        }
        self.computations().get((part - injectors) as usize)
    }

    /// What a part reads, which is nothing where it is no computation.
    pub fn reads(&self, part: u32) -> &[ReadingPart]
        requires { parts_of self.now < 2 ^ 32 }
        ensures { result.now ≡ reads_of self.now part }
    {
        match self.computation(part) {
            Some(computation) => computation.reads(),
            None => &[],
        }
    }

    /// Whether a part is a weak computation.
    pub fn weak(&self, part: u32) -> bool
        requires { parts_of self.now < 2 ^ 32 }
        ensures { result ≡ is_weak self.now part }
    {
        match self.computation(part) {
            Some(computation) => computation.weak(),
            None => false,
        }
    }

    /// The cuts of a part, of which there are none where it is no computation.
    pub fn cuts(&self, part: u32) -> &[Key]
        requires { parts_of self.now < 2 ^ 32 }
        ensures { result.now ≡ cuts_of self.now part }
    {
        match self.computation(part) {
            Some(computation) => computation.cuts().as_slice(),
            None => &[],
        }
    }
}
