//! Key extraction, Akidau et al., VLDB 2013, section 4.2.
ghost use Rattle.std.specs.Prelude.{◌≡◌, ◌==◌, length, IfOk};
ghost use Rattle.std.specs.List.{before_first, after_first};
ghost use Rattle.topology.specs.Shapes.{extracted, or_whole};

use crate::subscription::By;
use mw_types::{Key, NoMemory};
use std::alloc::Global;

/// The key that a consumer extracts from a record's: the whole key, or what stands before or after its
/// first slash where there is something.
pub fn extract(alloc: Global, by: By, key: &Key) -> Result<Key, NoMemory>
    ensures extracted { IfOk result (λ made. made ≡ extracted by key.now) }
{
    key_of(alloc, part_of(by, key.text()))
}

// The part of a key's text that is extracted.
fn part_of(by: By, text: &str) -> &str
    ensures { result.now ≡ extracted by text.now }
{
    match by {
        By::Key => text,
        By::Head => or_all(head(text), text),
        By::Tail => or_all(tail(text), text),
    }
}

// A part of a text, or all of it where the part is empty.
fn or_all<'a>(part: &'a str, text: &'a str) -> &'a str
    ensures { result.now ≡ or_whole part.now text.now }
{
    if part.is_empty() { text } else { part }
}

// What stands before the first slash, or all where there is none.
fn head(text: &str) -> &str
    ensures { result.now ≡ before_first (λ b. b == 47) text.now }
{
    match text.split_once('/') {
        Some((head, _)) => head,
        None => text,
    }
}

// What stands after the first slash, or nothing where there is none.
fn tail(text: &str) -> &str
    ensures { result.now ≡ after_first (λ b. b == 47) text.now }
{
    match text.split_once('/') {
        Some((_, tail)) => tail,
        None => "",
    }
}

// The key with this text, which may be empty as the key of an injector's row is.
fn key_of(alloc: Global, text: &str) -> Result<Key, NoMemory>
    ensures { IfOk result (λ key. key ≡ text.now) }
{
    if text.is_empty() {
        return Ok(Key::none(alloc));
    }
    // A part of a key is no longer than the key.
    Key::of(alloc, text).map_err(|_| NoMemory)
}
