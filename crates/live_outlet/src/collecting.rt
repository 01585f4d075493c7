//! Each live line of a text, once.
ghost use Rattle.std.specs.Prelude.{◌≡◌, ◌++◌, ◌<◌, ◌^◌, ◌+◌, Ok, length, map, ℕ, IfErr, IfOk, OnOk};
ghost use Rattle.std.specs.BTreeMap.{insert_entry, IsOrdered};
ghost use Rattle.mw_types.specs.Orders.{id_cmp};
ghost use Rattle.live_outlet.specs.LiveLines.{IsLive};
ghost use Rattle.live_outlet.specs.Collecting.{told_id, id_spelt, IsCollected, WhyNot, first_with};
ghost use Rattle.live_outlet.specs.Progress.{line_taken, kept_beside, IsRefusalOf};

use crate::guess::line_guessed;
use crate::held::Held;
use crate::line::LiveLine;
use crate::refusal::CollectRefusal;
use mw_types::{Bytes, NoMemory, RecordId, Seq};
use std::alloc::Global;
use std::collections::BTreeMap;
use text_lines::first_line;

/// What a text of live lines collects to.
#[derive(Drop)]
pub struct Collected {
    /// Each live line, without its LF, ascending by id.
    pub lines: Seq<Bytes>,
    /// How many lines are no live lines, and not empty.
    pub other: u32,
}

// The first live line of each id.
type Firsts = BTreeMap<RecordId, Held>;

/// Each live line of a text, once, where no two of one id differ. A text that was written in pieces,
/// some of them again after a fault, so gives each result once.
pub fn collect(alloc: Global, bytes: &[u8]) -> Result<Collected, CollectRefusal>
    requires few { length bytes.now < 2 ^ 32 }

    ensures collected { IfOk result (λ all. IsCollected bytes.now all.lines all.other) }
    ensures refused { IfErr result (WhyNot bytes.now) }
{
    let mut firsts = BTreeMap::new(alloc);
    let mut other = 0;
    let mut rest = bytes;
    let mut line: u32 = 0;
    while !rest.is_empty() {
        let (text, after) = first_line(rest);
        line += 1;
        if let Err(why) = take(alloc, &mut firsts, &mut other, line, text) {
            return Err(why);
        }
        rest = after;
    }
    let lines = texts(alloc, firsts)?;
    Ok(Collected { lines, other })
}

// Takes one more line.
fn take(
    alloc: Global,
    firsts: &mut Firsts,
    other: &mut u32,
    line: u32,
    text: &[u8],
) -> Result<(), CollectRefusal>
    requires fits { other.old < line }
    ensures taken { OnOk result (line_taken
        (record { firsts = firsts.old.entries; other = other.old }) line text.now
        ≡ Ok (record { firsts = firsts.new.entries; other = other.new })) }
    ensures refused { IfErr result (IsRefusalOf (line_taken
        (record { firsts = firsts.old.entries; other = other.old }) line text.now)) }
    ensures most { OnOk result (other.new < line + 1) }
{
    if text.is_empty() {
        return Ok(());
    }
    match told_id(alloc, text)? {
        Some(id) => keep(alloc, firsts, id, line, text),
        None => {
            *other += 1;
            Ok(())
        }
    }
}

// Keeps a live line, unless one with its id was found.
fn keep(
    alloc: Global,
    firsts: &mut Firsts,
    id: RecordId,
    line: u32,
    text: &[u8],
) -> Result<(), CollectRefusal>
    ensures kept { (other : ℕ) → OnOk result (kept_beside (first_with id firsts.old.entries)
        (record { firsts = firsts.old.entries; other = other }) line id text.now
        ≡ Ok (record { firsts = firsts.new.entries; other = other })) }
    ensures refused { (other : ℕ) → IfErr result (IsRefusalOf (kept_beside
        (first_with id firsts.old.entries)
        (record { firsts = firsts.old.entries; other = other }) line id text.now)) }
{
    if let Some(held) = firsts.get(&id) {
        if held.text.as_slice() == text {
            return Ok(());
        }
        return Err(CollectRefusal::Differs {
            line,
            first: held.line,
        });
    }
    insert(alloc, firsts, id, line, text)?;
    Ok(())
}

// Puts a live line among the first ones.
fn insert(
    alloc: Global,
    firsts: &mut Firsts,
    id: RecordId,
    line: u32,
    text: &[u8],
) -> Result<(), NoMemory>
    ensures { OnOk result (firsts.new.entries ≡ insert_entry id_cmp firsts.old.entries id
        (record { line = line; text = text.now })) }
{
    let text = bytes_of(alloc, text)?;
    firsts.insert(id, Held { line, text })?;
    Ok(())
}

// The id of the live line that has this before its LF.
fn told_id(alloc: Global, text: &[u8]) -> Result<Option<RecordId>, NoMemory>
    ensures { IfOk result (λ id. id ≡ told_id text.now) }
{
    match line_guessed(alloc, text)? {
        Some(line) => id_spelt(alloc, text, &line),
        None => Ok(None),
    }
}

// The id of a line, where this is what it has before its LF.
fn id_spelt(alloc: Global, text: &[u8], line: &LiveLine) -> Result<Option<RecordId>, NoMemory>
    requires live { IsLive line.now }
    ensures { IfOk result (λ id. id ≡ id_spelt text.now line.now) }
{
    let spelt = line.text(alloc)?;
    if spelt.as_slice() == text {
        Ok(Some(line.id))
    } else {
        Ok(None)
    }
}

// These bytes, in a list of their own.
fn bytes_of(alloc: Global, text: &[u8]) -> Result<Bytes, NoMemory>
    ensures { IfOk result (λ bytes. bytes ≡ text.now) }
{
    let mut bytes = Vec::new(alloc);
    bytes.extend_from_slice(text)?;
    Ok(Bytes::from_vec(bytes))
}

// The texts of the first lines, ascending by id.
fn texts(alloc: Global, firsts: Firsts) -> Result<Seq<Bytes>, NoMemory>
    ensures texts { IfOk result (λ texts. texts ≡ map (λ one. one.1.text) firsts.entries) }
    ensures ordered { OnOk result (IsOrdered id_cmp firsts) }
{
    // A map keeps its keys in order.
    let _count = firsts.len();
    let mut firsts = firsts;
    let mut texts = Seq::new(alloc);
    while let Some((_, held)) = firsts.pop_first() {
        texts.push(held.text)?;
    }
    Ok(texts)
}
