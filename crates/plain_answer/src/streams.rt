//! The streams of all parts, worked out part by part.
ghost use Rattle.std.specs.Prelude.{◌≡◌, ◌++◌, ◌∷◌, ◌<◌, ◌≤◌, [], map, replicate, take, IfOk, OnOk};
ghost use Rattle.std.specs.List.Sorted.{IsPermutation};
ghost use Rattle.mw_types.specs.Kinds.{IsKind};
ghost use Rattle.mw_types.specs.declared.kind.Kind.TheVariants.{Count};
ghost use Rattle.topology.specs.Shapes.{consumers_of, injectors_of, parts_of};
ghost use Rattle.run_history.specs.Cases.{record_of, source_of};
ghost use Rattle.plain_answer.specs.Plain.{injected_of, plain_of, fires_of, fired_of};
ghost use Rattle.plain_answer.specs.Sends.{sent_along, ArePlain, AreRead, AreInjected};

use crate::given::{Given, added};
use crate::sends::{Members, copied, send_stream};
use crate::spikes::spikes_of;
use crate::windows::windows_of;
use history_laws::case_is_runnable;
use mw_types::{Key, Kind, NoMemory, Record, Seq};
use run_history::Case;
use std::alloc::Global;
use topology::Subscription;

// The streams of the parts so far, what they send to each part, and, once all are there, how many
// timers fire.
#[derive(Drop)]
pub(crate) struct Sent {
    pub(crate) streams: Vec<Seq<Record>>,
    pub(crate) reads: Vec<Members>,
    pub(crate) fired: u64,
}

// The streams of all parts of a case, each in some order.
pub(crate) fn all_streams(alloc: Global, case: &Case) -> Result<Sent, NoMemory>
    ensures plain { IfOk result (λ all. ArePlain case.now all.streams.items) }
    ensures read { IfOk result (λ all.
        AreRead case.now.topology all.streams.items all.reads.items) }
    ensures fired { IfOk result (λ all. all.fired ≡ fired_of case.now) }
{
    let mut all = Sent {
        streams: Vec::new(alloc),
        reads: no_reads(alloc, case.topology.parts())?,
        fired: 0,
    };
    inject(alloc, case, &mut all)?;
    all.fired = compute(alloc, case, &mut all)?;
    Ok(all)
}

// An empty list for each part.
fn no_reads(alloc: Global, parts: u32) -> Result<Vec<Members>, NoMemory>
    ensures { IfOk result (λ reads. reads.items ≡ replicate parts []) }
{
    let mut reads = Vec::new(alloc);
    for _ in 0..parts {
        reads.push(Seq::new(alloc))?;
    }
    Ok(reads)
}

// Puts the streams of the injectors.
fn inject(alloc: Global, case: &Case, all: &mut Sent) -> Result<(), NoMemory>
    requires none { all.old.streams.items ≡ [] }
    requires empty { all.old.reads.items ≡ replicate (parts_of case.now.topology) [] }
    ensures injected { OnOk result (AreInjected case.now all.new.streams.items) }
    ensures read { OnOk result
        (AreRead case.now.topology all.new.streams.items all.new.reads.items) }
{
    for part in 0..case.topology.injectors() {
        let stream = injected(alloc, case, part)?;
        let _parts = case.topology.parts();
        put(alloc, all, case.topology.consumers(part), stream)?;
    }
    Ok(())
}

// Puts the streams of the computations behind those of the injectors, and counts how many timers
// fire.
fn compute(alloc: Global, case: &Case, all: &mut Sent) -> Result<u64, NoMemory>
    requires injected { AreInjected case.now all.old.streams.items }
    requires read { AreRead case.now.topology all.old.streams.items all.old.reads.items }
    ensures plain { OnOk result (ArePlain case.now all.new.streams.items) }
    ensures read { OnOk result
        (AreRead case.now.topology all.new.streams.items all.new.reads.items) }
    ensures fired { IfOk result (λ fired. fired ≡ fired_of case.now) }
{
    case_is_runnable(case);
    let mut fired = 0;
    for part in case.topology.injectors()..case.topology.parts() {
        let given = given(
            alloc,
            case.topology.kind(part),
            all.reads[part as usize].as_slice(),
        )?;
        fired = added(fired, given.fires)?;
        put(alloc, all, case.topology.consumers(part), given.records)?;
    }
    Ok(fired)
}

// Puts one more stream, and sends it on.
fn put(
    alloc: Global,
    all: &mut Sent,
    consumers: &[Subscription],
    stream: Seq<Record>,
) -> Result<(), NoMemory>
    ensures streams { OnOk result (all.new.streams.items ≡ all.old.streams.items ++ stream ∷ []) }
    ensures reads { OnOk result
        (all.new.reads.items ≡ sent_along consumers.now all.old.reads.items stream) }
{
    send_stream(alloc, &mut all.reads, consumers, stream.as_slice())?;
    all.streams.push(stream)?;
    Ok(())
}

// The records of an injector's file.
fn injected(alloc: Global, case: &Case, part: u32) -> Result<Seq<Record>, NoMemory>
    requires { part < injectors_of case.now.topology }
    ensures { IfOk result (λ items. items ≡ injected_of (source_of case.now part)) }
{
    let source = &case.items.as_slice()[part as usize];
    let mut items = Seq::new(alloc);
    for line in 0..source.count() {
        items.push(case.line_record(alloc, part, line)?)?;
    }
    Ok(items)
}

// What a part of a kind gives of all that it reads.
fn given(alloc: Global, kind: Kind, members: &[(Key, Record)]) -> Result<Given, NoMemory>
    requires { IsKind kind }
    ensures records { IfOk result (λ given.
        IsPermutation (plain_of kind members.now) given.records) }
    ensures fires { IfOk result (λ given. given.fires ≡ fires_of kind members.now) }
{
    match kind {
        Kind::Count { size } => counted(alloc, size, members),
        Kind::Spike { last, times } => spikes_of(alloc, last, times, members),
        Kind::Pass => passed(alloc, members),
    }
}

// What a count gives: it fires once a window.
fn counted(alloc: Global, size: u64, members: &[(Key, Record)]) -> Result<Given, NoMemory>
    requires { 1 ≤ size }
    ensures records { IfOk result (λ given.
        IsPermutation (plain_of (Count size) members.now) given.records) }
    ensures fires { IfOk result (λ given. given.fires ≡ fires_of (Count size) members.now) }
{
    let windows = windows_of(alloc, size, members)?;
    let fires = windows.len() as u64;
    Ok(Given {
        records: Seq::from_vec(windows),
        fires,
    })
}

// What a pass gives: each record again, and it never fires.
fn passed(alloc: Global, members: &[(Key, Record)]) -> Result<Given, NoMemory>
    ensures records { IfOk result (λ given. given.records ≡ map (λ m. m.1) members.now) }
    ensures fires { IfOk result (λ given. given.fires ≡ 0) }
{
    let mut records = Seq::new(alloc);
    for member in members {
        records.push(copied(alloc, &member.1)?)?;
    }
    Ok(Given { records, fires: 0 })
}
