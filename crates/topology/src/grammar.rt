//! The parts that the JSON value of a topology file states.
ghost use Rattle.std.specs.Prelude.{◌≡◌, ◌≤◌, codes, IfSome};
ghost use Rattle.std.specs.Option.{option_map};
ghost use Rattle.serde_json.specs.Find.{as_str};
ghost use Rattle.serde_json.specs.View.{view, items_view};
ghost use Rattle.topology.specs.Grammar.{and_then, has_members, each_of, list_of, array_in, list_in, some_of, text_in, number_in, injector_in, by_named, reading_in, kind_named, kind_in, reads_in, cuts_in, times_named, optional_of, weakness_in, members_of, names_in, lists_in, computation_with, computation_in, injectors_in, shape_in, count_kind, spike_kind, computation_of_kind};
ghost use Rattle.topology.specs.Answers.{Gives};

use crate::file_parts::{FileComputation, FileParts};
use crate::parts::{InjectorPart, ReadingPart};
use crate::refusal::ShapeRefusal;
use crate::subscription::By;
use mw_types::{Kind, Name, Seq};
use serde_json::Value;
use std::alloc::Global;

// Whether a value is an object of so many members.
fn has_members(value: &Value, count: usize) -> bool
    ensures { result ≡ has_members count (view value.now) }
{
    match value.as_object() {
        Some(members) => members.len() == count,
        None => false,
    }
}

// The items of the array that a member is.
fn array_in<'v>(value: &'v Value, name: &str) -> Option<&'v [Value]>
    ensures { option_map (λ xs. items_view xs.now) result ≡ array_in name.now (view value.now) }
{
    match value.get(name)?.as_array() {
        Some(items) => Some(items.as_slice()),
        None => None,
    }
}

// The text that a member is.
fn text_in<'v>(value: &'v Value, name: &str) -> Option<&'v str>
    ensures { option_map (λ text. text.now) result ≡ text_in name.now (view value.now) }
{
    value.get(name).and_then(Value::as_str)
}

// The name that a member is.
fn name_in(alloc: Global, value: &Value, name: &str) -> Result<Name, ShapeRefusal>
    ensures { Gives result (text_in name.now (view value.now)) }
{
    match text_in(value, name) {
        Some(text) => Ok(Name::of(alloc, text)?),
        None => Err(ShapeRefusal::BadShape),
    }
}

// The number that a member is, or 0 where it is not a whole one up to the greatest.
fn number_in(value: &Value, name: &str, greatest: u64) -> Option<u64>
    ensures number { result ≡ number_in greatest name.now (view value.now) }
    ensures bounded { IfSome result (λ n. n ≤ greatest) }
{
    let member = value.get(name)?;
    if !member.is_number() {
        return None;
    }
    match member.as_u64() {
        Some(n) if n <= greatest => Some(n),
        _ => Some(0),
    }
}

// The list, where it is not empty.
fn some_of<X: Drop>(list: Seq<X>) -> Result<Seq<X>, ShapeRefusal>
    ensures { Gives result (some_of list) }
{
    if list.is_empty() {
        Err(ShapeRefusal::BadShape)
    } else {
        Ok(list)
    }
}

// An injector.
fn injector_in(alloc: Global, value: &Value) -> Result<InjectorPart, ShapeRefusal>
    ensures { Gives result (injector_in (view value.now)) }
{
    if !has_members(value, 2) {
        return Err(ShapeRefusal::BadShape);
    }
    let name = name_in(alloc, value, "name")?;
    let stream = name_in(alloc, value, "stream")?;
    Ok(InjectorPart { name, stream })
}

// The injectors that these values state.
fn each_injector(alloc: Global, values: &[Value]) -> Result<Seq<InjectorPart>, ShapeRefusal>
    ensures { Gives result (each_of injector_in (items_view values.now)) }
{
    let mut found = Seq::new(alloc);
    for value in values {
        found.push(injector_in(alloc, value)?)?;
    }
    Ok(found)
}

// The extractor of this name.
fn by_named(name: &str) -> Option<By>
    ensures { result ≡ by_named name.now }
{
    match name {
        "key" => Some(By::Key),
        "head" => Some(By::Head),
        "tail" => Some(By::Tail),
        _ => None,
    }
}

// The extractor of a reading.
fn by_in(value: &Value) -> Option<By>
    ensures { result ≡ and_then (text_in (codes "by") (view value.now)) by_named }
{
    by_named(text_in(value, "by")?)
}

// A reading.
fn reading_in(alloc: Global, value: &Value) -> Result<ReadingPart, ShapeRefusal>
    ensures { Gives result (reading_in (view value.now)) }
{
    if !has_members(value, 2) {
        return Err(ShapeRefusal::BadShape);
    }
    let stream = name_in(alloc, value, "stream")?;
    match by_in(value) {
        Some(by) => Ok(ReadingPart { stream, by }),
        None => Err(ShapeRefusal::BadShape),
    }
}

// The readings that these values state.
fn readings_of(alloc: Global, values: &[Value]) -> Result<Seq<ReadingPart>, ShapeRefusal>
    ensures { Gives result (each_of reading_in (items_view values.now)) }
{
    let mut found = Seq::new(alloc);
    for value in values {
        found.push(reading_in(alloc, value)?)?;
    }
    Ok(found)
}

// A count.
fn count_kind(value: &Value) -> Option<Kind>
    ensures { result ≡ count_kind (view value.now) }
{
    let size = number_in(value, "size", u64::MAX)?;
    Some(Kind::Count { size })
}

// A number of a spike.
fn small_in(value: &Value, name: &str) -> Option<u32>
    ensures { result ≡ number_in 4294967295 name.now (view value.now) }
{
    let number = number_in(value, name, 4_294_967_295)?;
    Some(number as u32)
}

// A spike.
fn spike_kind(value: &Value) -> Option<Kind>
    ensures { result ≡ spike_kind (view value.now) }
{
    let last = small_in(value, "last")?;
    let times = small_in(value, "times")?;
    Some(Kind::Spike { last, times })
}

// The kind of this name.
fn kind_named(value: &Value, name: &str) -> Option<Kind>
    ensures { result ≡ kind_named (view value.now) name.now }
{
    match name {
        "count" => count_kind(value),
        "spike" => spike_kind(value),
        "pass" => Some(Kind::Pass),
        _ => None,
    }
}

// The kind of a computation.
fn kind_in(value: &Value) -> Option<Kind>
    ensures { result ≡ kind_in (view value.now) }
{
    kind_named(value, text_in(value, "kind")?)
}

// The texts that these values are.
fn texts_of(alloc: Global, values: &[Value]) -> Result<Seq<Name>, ShapeRefusal>
    ensures { Gives result (each_of as_str (items_view values.now)) }
{
    let mut found = Seq::new(alloc);
    for value in values {
        found.push(text_of(alloc, value)?)?;
    }
    Ok(found)
}

// The text that a value is.
fn text_of(alloc: Global, value: &Value) -> Result<Name, ShapeRefusal>
    ensures { Gives result (as_str (view value.now)) }
{
    match value.as_str() {
        Some(text) => Ok(Name::of(alloc, text)?),
        None => Err(ShapeRefusal::BadShape),
    }
}

// The texts of an array.
fn text_list(alloc: Global, value: &Value) -> Result<Seq<Name>, ShapeRefusal>
    ensures { Gives result (list_of as_str (view value.now)) }
{
    match value.as_array() {
        Some(values) => texts_of(alloc, values.as_slice()),
        None => Err(ShapeRefusal::BadShape),
    }
}

// The cuts of a computation.
fn cuts_in(alloc: Global, value: &Value) -> Result<Seq<Name>, ShapeRefusal>
    ensures { Gives result (cuts_in (view value.now)) }
{
    match value.get("cuts") {
        Some(cuts) => text_list(alloc, cuts),
        None => Ok(Seq::new(alloc)),
    }
}

// How many members a computation of this kind has.
fn members_of(kind: Kind, value: &Value) -> usize
    ensures { result ≡ members_of kind (view value.now) }
{
    let numbers = match kind {
        Kind::Count { size: _ } => 1,
        Kind::Spike { last: _, times: _ } => 2,
        Kind::Pass => 0,
    };
    4 + numbers + optional_of(kind, value)
}

// How often a member of this name is there.
fn times_named(value: &Value, name: &str) -> usize
    ensures { result ≡ times_named name.now (view value.now) }
{
    match value.get(name) {
        Some(_) => 1,
        None => 0,
    }
}

// How many members there are that may be missing. A `weak` that stands at another kind is not
// counted, and so is one member too many.
fn optional_of(kind: Kind, value: &Value) -> usize
    ensures { result ≡ optional_of kind (view value.now) }
{
    let cuts = times_named(value, "cuts");
    match kind {
        Kind::Pass => cuts + times_named(value, "weak"),
        _ => cuts,
    }
}

// Whether a computation of this kind is weak, or None where its member is no truth value.
fn weakness_in(kind: Kind, value: &Value) -> Option<bool>
    ensures { result ≡ weakness_in kind (view value.now) }
{
    match kind {
        Kind::Pass => value.get("weak").map_or(Some(false), Value::as_bool),
        _ => Some(false),
    }
}

// The readings of a computation, of which there is one at least.
fn reads_in(alloc: Global, value: &Value) -> Result<Seq<ReadingPart>, ShapeRefusal>
    ensures { Gives result (reads_in (view value.now)) }
{
    match array_in(value, "reads") {
        Some(values) => some_of(readings_of(alloc, values)?),
        None => Err(ShapeRefusal::BadShape),
    }
}

// A computation of this kind.
fn computation_of_kind(
    alloc: Global,
    value: &Value,
    kind: Kind,
) -> Result<FileComputation, ShapeRefusal>
    ensures { Gives result (computation_of_kind (view value.now) kind) }
{
    if !has_members(value, members_of(kind, value)) {
        return Err(ShapeRefusal::BadShape);
    }
    match weakness_in(kind, value) {
        Some(weak) => computation_with(alloc, value, kind, weak),
        None => Err(ShapeRefusal::BadShape),
    }
}

// What a computation is called, and what its stream is called.
fn names_in(alloc: Global, value: &Value) -> Result<(Name, Name), ShapeRefusal>
    ensures { Gives result (names_in (view value.now)) }
{
    let name = name_in(alloc, value, "name")?;
    let stream = name_in(alloc, value, "stream")?;
    Ok((name, stream))
}

// What it reads, and its cuts.
fn lists_in(alloc: Global, value: &Value) -> Result<(Seq<ReadingPart>, Seq<Name>), ShapeRefusal>
    ensures { Gives result (lists_in (view value.now)) }
{
    let reads = reads_in(alloc, value)?;
    let cuts = cuts_in(alloc, value)?;
    Ok((reads, cuts))
}

// A computation of this kind and weakness.
fn computation_with(
    alloc: Global,
    value: &Value,
    kind: Kind,
    weak: bool,
) -> Result<FileComputation, ShapeRefusal>
    ensures { Gives result (computation_with (view value.now) kind weak) }
{
    let (name, stream) = names_in(alloc, value)?;
    let (reads, cuts) = lists_in(alloc, value)?;
    Ok(FileComputation {
        name,
        kind,
        reads,
        stream,
        cuts,
        weak,
    })
}

// A computation.
fn computation_in(alloc: Global, value: &Value) -> Result<FileComputation, ShapeRefusal>
    ensures { Gives result (computation_in (view value.now)) }
{
    match kind_in(value) {
        Some(kind) => computation_of_kind(alloc, value, kind),
        None => Err(ShapeRefusal::BadShape),
    }
}

// The computations that these values state.
fn each_computation(alloc: Global, values: &[Value]) -> Result<Seq<FileComputation>, ShapeRefusal>
    ensures { Gives result (each_of computation_in (items_view values.now)) }
{
    let mut found = Seq::new(alloc);
    for value in values {
        found.push(computation_in(alloc, value)?)?;
    }
    Ok(found)
}

// The injectors of a file, of which there is one at least.
fn injectors_in(alloc: Global, value: &Value) -> Result<Seq<InjectorPart>, ShapeRefusal>
    ensures { Gives result (injectors_in (view value.now)) }
{
    match array_in(value, "injectors") {
        Some(values) => some_of(each_injector(alloc, values)?),
        None => Err(ShapeRefusal::BadShape),
    }
}

// The computations of a file.
fn computations_in(alloc: Global, value: &Value) -> Result<Seq<FileComputation>, ShapeRefusal>
    ensures { Gives result (list_in computation_in (codes "computations") (view value.now)) }
{
    match array_in(value, "computations") {
        Some(values) => each_computation(alloc, values),
        None => Err(ShapeRefusal::BadShape),
    }
}

/// The parts that a file states.
pub fn shape_in(alloc: Global, value: &Value) -> Result<FileParts, ShapeRefusal>
    ensures { Gives result (shape_in (view value.now)) }
{
    if !has_members(value, 2) {
        return Err(ShapeRefusal::BadShape);
    }
    let injectors = injectors_in(alloc, value)?;
    let computations = computations_in(alloc, value)?;
    Ok(FileParts {
        injectors,
        computations,
    })
}
