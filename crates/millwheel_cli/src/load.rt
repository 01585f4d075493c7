//! What the mode `load` runs.
ghost use Rattle.std.specs.Prelude.{◌≡◌, ◌<◌, ◌+◌, ◌*◌, ◌%◌, ◌++◌, [], ◌∷◌, Ok, Err, OnOk, IfOk, IfErr};
ghost use Rattle.topology.specs.Shapes.{injectors_of};
ghost use Rattle.world.specs.scripts.WorldStates.{IsFolding};
ghost use Rattle.millwheel_cli.specs.Limits.{lines_limit};
ghost use Rattle.millwheel_cli.specs.Files.{source_taken, topology_taken};
ghost use Rattle.millwheel_cli.specs.Loads.{drawn_after, record_line, mark_line, load_text, load_topology};
ghost use Rattle.millwheel_cli.specs.Tasks.{IsLoadCase};
ghost use Rattle.millwheel_cli.specs.Reasons.{load_taken};
ghost use Rattle.millwheel_cli.specs.Inside.{UnlessWant};

use crate::form::{Bare, items_of, topology_of, with_sources};
use crate::refusal::Refusal;
use injector::{Items, ItemsList};
use mw_types::{Bytes, NoMemory, Seq};
use std::alloc::Global;
use text_lines::LINES_MAX;
use topology::Folded;

// The topology of load: one injector, and a count over windows of 60, in three intervals.
const TOPOLOGY: &str =
    r#"{"injectors":[{"name":"clicks","stream":"raw"}],"computations":[{"name":"per_minute","kind":"count","size":60,"reads":[{"stream":"raw","by":"key"}],"stream":"windows","cuts":["h","q"]}]}"#;

// The numbers that are drawn are below this.
const DRAWN: u32 = 65537;

/// The case of load, by a seed and with so many lines: what solo makes of its topology and of one file
/// with these lines, and the ways through the weak computations of that topology, which has none.
pub fn load_case(alloc: Global, seed: u32, lines: u32) -> Result<Bare, Refusal>
    ensures made { IfOk result (λ bare. IsLoadCase seed lines bare.case) }
    ensures folding { IfOk result (λ bare. IsFolding bare.case.topology bare.routes) }
    ensures refused { IfErr result (UnlessWant (λ status. load_taken seed lines ≡ Err status)) }
{
    let folded = load_folded(alloc)?;
    match load_items(alloc, seed, lines) {
        Ok(items) => Ok(one_source(alloc, folded, items)?),
        Err(refusal) => {
            drop(folded);
            Err(refusal)
        }
    }
}

// What is left of the topology of load: all of it, since it has no weak computation.
fn load_folded(alloc: Global) -> Result<Folded, Refusal>
    ensures taken { IfOk result (λ folded. topology_taken 1 load_topology ≡ Ok folded.topology) }
    ensures folding { IfOk result (λ folded. IsFolding folded.topology folded.routes) }
    ensures injectors { IfOk result (λ folded. injectors_of folded.topology ≡ 1) }
    ensures refused { IfErr result
        (UnlessWant (λ status. topology_taken 1 load_topology ≡ Err status)) }
{
    topology_of(alloc, 1, load_topology())
}

// The topology of load, as its file would have it.
fn load_topology() -> &'static [u8]
    ensures { result.now ≡ load_topology }
{
    TOPOLOGY.as_bytes()
}

// What the one event file of load holds. A file of 2^32 bytes, which no number of lines makes that words
// may ask for, would be refused as a lack of memory.
fn load_items(alloc: Global, seed: u32, lines: u32) -> Result<Items, Refusal>
    ensures taken { IfOk result
        (λ items. source_taken 0 lines_limit (load_text seed lines) ≡ Ok items) }
    ensures refused { IfErr result (UnlessWant
        (λ status. source_taken 0 lines_limit (load_text seed lines) ≡ Err status)) }
{
    let text = load_lines(alloc, seed, lines)?;
    let bytes = text.as_slice();
    if bytes.len() > u32::MAX as usize {
        return Err(Refusal::NoMemory);
    }
    items_of(alloc, 0, LINES_MAX, bytes)
}

// The case of what is left of a topology of one injector, which has these items.
fn one_source(alloc: Global, folded: Folded, items: Items) -> Result<Bare, NoMemory>
    requires { injectors_of folded.topology ≡ 1 }
    ensures case { IfOk result (λ bare.
        bare.case ≡ record { topology = folded.topology; sources = items ∷ [] }) }
    ensures routes { IfOk result (λ bare. bare.routes ≡ folded.routes) }
{
    match one_list(alloc, items) {
        Ok(sources) => with_sources(alloc, folded, sources),
        Err(NoMemory) => {
            drop(folded);
            Err(NoMemory)
        }
    }
}

// These items, as those of one injector.
fn one_list(alloc: Global, items: Items) -> Result<ItemsList, NoMemory>
    ensures { IfOk result (λ sources. sources ≡ items ∷ []) }
{
    let mut all = Seq::new(alloc);
    all.push(items)?;
    Ok(all)
}

/// The lines of the mode `load`: so many record lines of an event file, which the seed decides, with a
/// watermark line after each fifty.
pub fn load_lines(alloc: Global, seed: u32, lines: u32) -> Result<Bytes, NoMemory>
    ensures lines { IfOk result (λ text. text ≡ load_text seed lines) }
{
    let mut text = Vec::new(alloc);
    let mut number = seed % DRAWN;
    for line in 0..lines {
        number = drawn_after(number);
        write_record(alloc, &mut text, line, number)?;
        write_mark(alloc, &mut text, line)?;
    }
    Ok(Bytes::from_vec(text))
}

// The number that is drawn after another.
fn drawn_after(number: u32) -> u32
    requires { number < 65537 }
    ensures drawn { result ≡ drawn_after number }
    ensures range { result < 65537 }
{
    (75 * number + 74) % DRAWN
}

// Appends the record line of this number, by the number that is drawn for it.
fn write_record(alloc: Global, text: &mut Vec<u8>, line: u32, number: u32) -> Result<(), NoMemory>
    ensures { OnOk result (text.new.items ≡ text.old.items ++ record_line line number) }
{
    let stamp = stamp_of(line, number);
    let rest = format!(in alloc; "\",\"ts\":{stamp}}}\n")?;
    text.extend_from_slice(b"{\"key\":\"".as_slice())?;
    text.push(letter_of(number))?;
    text.extend_from_slice(rest.as_bytes())?;
    Ok(())
}

// The timestamp of the record line of this number, by the number that is drawn for it.
fn stamp_of(line: u32, number: u32) -> u64
    ensures { result ≡ 10 * line + number % 100 }
{
    10 * u64::from(line) + u64::from(number % 100)
}

// The letter that is the key of a line, by the number that is drawn for it.
fn letter_of(number: u32) -> u8
    ensures { result ≡ 97 + number % 26 }
{
    b'a' + (number % 26) as u8
}

// Appends what stands behind the record line of this number.
fn write_mark(alloc: Global, text: &mut Vec<u8>, line: u32) -> Result<(), NoMemory>
    ensures { OnOk result (text.new.items ≡ text.old.items ++ mark_line line) }
{
    let next = u64::from(line) + 1;
    if next % 50 == 0 {
        let mark = 10 * next + 20;
        let whole = format!(in alloc; "{{\"watermark\":{mark}}}\n")?;
        text.extend_from_slice(whole.as_bytes())?;
    }
    Ok(())
}
