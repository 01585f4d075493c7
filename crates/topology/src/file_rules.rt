//! The rules of a topology file, each tried on all of its parts.
ghost use Rattle.std.specs.Prelude.{◌≡◌, length, sum_by, nat_le, nat_eq, ℕ, List, IfErr, OnOk};
ghost use Rattle.std.specs.Ordering.{is_lt};
ghost use Rattle.std.specs.List.{list_any, list_all};
ghost use Rattle.std.specs.Cmp.Lexicographic.{pointwise};
ghost use Rattle.mw_types.specs.Orders.{key_cmp};
ghost use Rattle.topology.specs.Shapes.{streams_of};
ghost use Rattle.topology.specs.Rules.{is_name_byte, is_name, all_differ, names_of};
ghost use Rattle.topology.specs.Answers.{reading_count, cut_count};
ghost use Rattle.json_reading.specs.Refusals.{IsRefusalOf};
ghost use Rattle.topology.specs.FileRules.{is_few, reads_among, reads_above, in_range, is_in_range, is_ascending, is_cut, are_cuts, has_cuts, where_foldable, checked};

use crate::file_parts::{FileComputation, FileParts};
use crate::parts::ReadingPart;
use crate::publishers::{names_in, streams_in};
use crate::refusal::TopologyRefusal;
use mw_types::{Kind, Name};
use std::alloc::Global;

// Whether there are at most so many readings.
fn has_room_for_reads(computations: &[FileComputation], room: usize) -> bool
    ensures { result ≡ nat_le (reading_count computations.now) room }
{
    let mut left = room;
    for computation in computations {
        let reads = computation.reads().len();
        if reads > left {
            return false;
        }
        left -= reads;
    }
    true
}

// Whether there are at most so many cuts.
fn has_room_for_cuts(computations: &[FileComputation], room: usize) -> bool
    ensures { result ≡ nat_le (cut_count computations.now) room }
{
    let mut left = room;
    for computation in computations {
        let cuts = computation.cuts().len();
        if cuts > left {
            return false;
        }
        left -= cuts;
    }
    true
}

// Whether there are at most 16 injectors, 32 computations, 64 readings and 61 intervals.
fn is_few(file: &FileParts) -> bool
    ensures { result ≡ is_few file.now }
{
    let injectors = file.injectors().len();
    let computations = file.computations().len();
    if injectors > 16 || computations > 32 {
        return false;
    }
    has_room_for_reads(file.computations(), 64)
        && has_room_for_cuts(file.computations(), 61 - (injectors + computations))
}

// Whether a name may have this byte.
fn is_name_byte(b: u8) -> bool
    ensures { result ≡ is_name_byte b }
{
    b.is_ascii_lowercase() || b.is_ascii_digit() || b == b'_'
}

// Whether a name may have these bytes.
fn are_name_bytes(bytes: &[u8]) -> bool
    ensures { result ≡ list_all is_name_byte bytes.now }
{
    bytes.iter().all(|b| is_name_byte(*b))
}

/// Whether a text is a name, as one of a part or of a stream has to be.
pub fn is_name(text: &[u8]) -> bool
    ensures { result ≡ is_name text.now }
{
    match text.split_first() {
        Some((first, rest)) => {
            first.is_ascii_lowercase() && are_name_bytes(rest) && rest.len() <= 63
        }
        None => false,
    }
}

// Whether each text is a name.
fn are_names(texts: &[Name]) -> bool
    ensures { result ≡ list_all is_name texts.now }
{
    texts.iter().all(|text| is_name(text.text().as_bytes()))
}

// Whether a text is among these.
fn is_among(texts: &[Name], text: &str) -> bool
    ensures { result ≡ list_any (pointwise nat_eq text.now) texts.now }
{
    texts.iter().any(|other| text == other.text())
}

// Whether no two of the texts are equal.
fn all_differ(texts: &[Name]) -> bool
    ensures { result ≡ all_differ texts.now }
{
    let mut rest = texts;
    while let Some((text, others)) = rest.split_first() {
        if is_among(others, text.text()) {
            return false;
        }
        rest = others;
    }
    true
}

// Whether all that is read is among these streams.
fn reads_among(streams: &[Name], reads: &[ReadingPart]) -> bool
    ensures { result ≡ reads_among streams.now reads.now }
{
    reads
        .iter()
        .all(|reading| is_among(streams, reading.stream()))
}

// Whether each computation reads only what the parts before it publish.
fn reads_above(file: &FileParts, streams: &[Name]) -> bool
    requires { streams.now ≡ streams_of file.now }
    ensures { result ≡ reads_above file.now }
{
    let injectors = file.injectors().len();
    for (at, computation) in file.computations().iter().enumerate() {
        if !reads_among(&streams[..injectors + at], computation.reads()) {
            return false;
        }
    }
    true
}

// Whether the numbers of a kind are in their ranges.
fn in_range(kind: Kind) -> bool
    ensures { result ≡ in_range kind }
{
    match kind {
        Kind::Count { size } => 1 <= size && size <= 1 << 40,
        Kind::Spike { last, times } => 1 <= last && last <= 64 && 1 <= times && times <= 1000,
        Kind::Pass => true,
    }
}

// Whether those of each computation are.
fn is_in_range(file: &FileParts) -> bool
    ensures { result ≡ is_in_range file.now }
{
    file.computations()
        .iter()
        .all(|computation| in_range(computation.kind()))
}

// Whether a text may be a cut.
fn is_cut(text: &Name) -> bool
    ensures { result ≡ is_cut text.now }
{
    1 <= text.len() && text.len() <= 256
}

// Whether each text may be a cut.
fn may_be_cuts(texts: &[Name]) -> bool
    ensures { result ≡ list_all is_cut texts.now }
{
    texts.iter().all(|text| is_cut(text))
}

// Whether a cut is below those after it.
fn is_below(cut: &Name, later: &[Name]) -> bool
    ensures { result ≡ list_all (λ (other : List ℕ). is_lt (key_cmp cut.now other)) later.now }
{
    later.iter().all(|other| cut < other)
}

// Whether each cut is below those after it.
fn is_ascending(cuts: &[Name]) -> bool
    ensures { result ≡ is_ascending cuts.now }
{
    let mut rest = cuts;
    while let Some((cut, later)) = rest.split_first() {
        if !is_below(cut, later) {
            return false;
        }
        rest = later;
    }
    true
}

// Whether these are cuts.
fn are_cuts(cuts: &[Name]) -> bool
    ensures { result ≡ are_cuts cuts.now }
{
    may_be_cuts(cuts) && is_ascending(cuts)
}

// Whether the cuts of each computation are.
fn has_cuts(file: &FileParts) -> bool
    ensures { result ≡ has_cuts file.now }
{
    file.computations()
        .iter()
        .all(|computation| are_cuts(computation.cuts()))
}

// The first rule that is broken, if one is.
fn broken_rule(file: &FileParts, names: &[Name], streams: &[Name]) -> Result<(), TopologyRefusal>
    requires names { names.now ≡ names_of file.now }
    requires streams { streams.now ≡ streams_of file.now }

    ensures kept { OnOk result (checked file.now ≡ where_foldable file.now) }
    ensures broken { IfErr result (λ why. checked file.now ≡ Err why) }
{
    if !is_few(file) {
        return Err(TopologyRefusal::TooMany);
    }
    if !(are_names(names) && are_names(streams)) {
        return Err(TopologyRefusal::BadName);
    }
    if !all_differ(names) {
        return Err(TopologyRefusal::DoubleName);
    }
    if !all_differ(streams) {
        return Err(TopologyRefusal::DoubleStream);
    }
    if !reads_above(file, streams) {
        return Err(TopologyRefusal::UnknownStream);
    }
    if !is_in_range(file) {
        return Err(TopologyRefusal::BadNumber);
    }
    if !has_cuts(file) {
        return Err(TopologyRefusal::BadCuts);
    }
    Ok(())
}

/// Tries all rules in their order but the last, for which weak computations have to be taken out.
pub fn check(alloc: Global, file: &FileParts) -> Result<(), TopologyRefusal>
    ensures kept { OnOk result (checked file.now ≡ where_foldable file.now) }
    ensures broken { IfErr result (IsRefusalOf TopologyRefusal.NoMemory (checked file.now)) }
{
    let names = names_in(alloc, file.injectors(), file.computations())?;
    let streams = streams_in(alloc, file.injectors(), file.computations())?;
    broken_rule(file, names.as_slice(), streams.as_slice())
}
