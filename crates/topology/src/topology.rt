//! The topology of a run, which keeps the rules.
ghost use Rattle.std.specs.Prelude.{◌≡◌, ◌≤◌, ◌<◌, ◌^◌, IfOk, Some};
ghost use Rattle.std.specs.List.Sorted.{IsStrictlySortedBy};
ghost use Rattle.std.specs.Ordering.{nat_cmp};
ghost use Rattle.mw_types.specs.Kinds.{IsKind};
ghost use Rattle.topology.specs.Shapes.{injectors_of, parts_of, stream_of, kind_of, cuts_of, is_weak, consumers_of, feeds_of};
ghost use Rattle.topology.specs.Folding.{folded, routes_in};
ghost use Rattle.topology.specs.Rules.{IsTopology, part_cuts_of};

use crate::folding::{Folded, fold_parts};
use crate::parts::Parts;
use crate::subscription::Subscription;
use crate::wiring::{SubscriptionList, wires_in};
use mw_types::{
    Duplicate, Key, KeyList, Kind, KindTable, Name, NoMemory, NumberList, PartCuts, PartCutsList,
    Seq,
};
use std::alloc::Global;
use std::marker::Model;

/// The parts of a run, the streams between them, and who reads what.
#[derive(Drop)]
pub struct Topology {
    parts: Parts,
    streams: Seq<Name>,
    consumers: Seq<SubscriptionList>,
    feeds: Seq<NumberList>,
}

impl Model for Topology {
    ghost use Rattle.topology.specs.Shapes.{Shape};
    ghost use Rattle.topology.specs.Kept.{IsKept};

    ghost Value = { Shape };

    ghost view = { λ t. t.parts };

    ghost invariant = { λ t. IsKept t.parts t.streams t.consumers t.feeds };
}

impl Topology {
    // The topology of these parts.
    pub(crate) fn of(alloc: Global, parts: Parts) -> Result<Topology, NoMemory>
        requires { IsTopology parts }
        ensures { IfOk result (λ t. t ≡ parts) }
    {
        let (streams, consumers, feeds) = wires_in(alloc, &parts)?;
        Ok(Topology {
            parts,
            streams,
            consumers,
            feeds,
        })
    }

    /// How many parts there are. They are numbered from 0, injectors first.
    pub fn parts(&self) -> u32
        ensures count { result ≡ parts_of self.now }
        ensures rules { IsTopology self.now }
    {
        self.parts.count()
    }

    /// How many parts are injectors.
    pub fn injectors(&self) -> u32
        ensures count { result ≡ injectors_of self.now }
        ensures rules { IsTopology self.now }
    {
        self.parts.injector_count()
    }

    /// The kind of a computation.
    pub fn kind(&self, part: u32) -> Kind
        requires computation { injectors_of self.now ≤ part }
        requires part { part < parts_of self.now }
        ensures kind { kind_of self.now part ≡ Some result }
        ensures within { IsKind result }
    {
        let at = part - self.parts.injector_count();
        self.parts.computations()[at as usize].kind()
    }

    /// The stream that a part publishes.
    pub fn stream(&self, part: u32) -> &str
        requires { part < parts_of self.now }
        ensures published { result.now ≡ stream_of self.now part }
    {
        self.streams.as_slice()[part as usize].text()
    }

    /// The subscriptions to the stream of a part, in the order of the file.
    pub fn consumers(&self, part: u32) -> &[Subscription]
        requires { part < parts_of self.now }
        ensures subscribed { result.now ≡ consumers_of self.now part }
    {
        self.consumers.as_slice()[part as usize].as_slice()
    }

    /// The parts whose streams a part reads, ascending, each once.
    pub fn feeds(&self, part: u32) -> &[u32]
        requires { part < parts_of self.now }
        ensures fed { result.now ≡ feeds_of self.now part }
        ensures ascending { IsStrictlySortedBy nat_cmp result.now }
    {
        self.feeds.as_slice()[part as usize].as_slice()
    }

    /// Whether a part is a weak pass, which commits nothing for a record before it sends it on.
    pub fn weak(&self, part: u32) -> bool
        requires { part < parts_of self.now }
        ensures weak { result ≡ is_weak self.now part }
    {
        self.parts.weak(part)
    }

    /// The topology without its weak passes, and where these were: what a run works on.
    ///
    /// Who read a weak pass reads, by its own extractor, what that pass read. The numbers of the
    /// parts behind one are smaller then. Nothing but want of memory is refused.
    pub fn fold(&self, alloc: Global) -> Result<Folded, NoMemory>
        ensures topology { IfOk result (λ made. made.topology ≡ folded self.now) }
        ensures routes { IfOk result (λ made. made.routes ≡ routes_in self.now) }
    {
        fold_parts(alloc, &self.parts)
    }

    /// Where the intervals of a part begin, but for the first.
    pub fn cuts(&self, part: u32) -> &[Key]
        requires { part < parts_of self.now }
        ensures cut { result.now ≡ cuts_of self.now part }
    {
        self.parts.cuts(part)
    }

    /// Each part with its cuts, by number.
    pub fn part_cuts(&self, alloc: Global) -> Result<PartCutsList, NoMemory>
        ensures cut { IfOk result (λ all. all ≡ part_cuts_of self.now) }
    {
        part_cuts_in(alloc, &self.parts)
    }
}

impl KindTable for Topology {
    ghost use Rattle.std.specs.Prelude.{map};
    ghost use Rattle.topology.specs.Shapes.{ComputationShape, injectors_of};

    ghost injector_count = { injectors_of };

    ghost kinds = { λ shape. map (λ (c : ComputationShape). c.kind) shape.computations };

    fn parts(&self) -> u32 {
        Topology::parts(self)
    }

    fn injectors(&self) -> u32 {
        Topology::injectors(self)
    }

    fn kind(&self, part: u32) -> Kind {
        Topology::kind(self, part)
    }
}

// Each part with its cuts, by number.
fn part_cuts_in(alloc: Global, parts: &Parts) -> Result<PartCutsList, NoMemory>
    requires { parts_of parts.now < 2 ^ 32 }
    ensures { IfOk result (λ all. all ≡ part_cuts_of parts.now) }
{
    let mut all = Seq::new(alloc);
    for part in 0..parts.count() {
        let cuts = cut_list(alloc, parts, part)?;
        all.push(PartCuts { part, cuts })?;
    }
    Ok(all)
}

// The cuts of one part.
fn cut_list(alloc: Global, parts: &Parts, part: u32) -> Result<KeyList, NoMemory>
    requires { parts_of parts.now < 2 ^ 32 }
    ensures { IfOk result (λ cuts. cuts ≡ cuts_of parts.now part) }
{
    match parts.computation(part) {
        Some(computation) => computation.cuts().copy(alloc),
        None => Ok(Seq::new(alloc)),
    }
}
