//! A guess of what was chosen of an entry, by the places at which a line that was printed has it.
//!
//! No clause says what is guessed: the entry that comes of it is printed and compared with the line, and where
//! it is another the line is read whole.

use live_outlet::id_in;
use memchr::memchr;
use mw_types::{NoMemory, RecordId, RowName};
use std::alloc::Global;
use trace_lines::{Choice, key_of};

// What may have been chosen of the entry of a line.
pub(crate) fn choice_guessed(alloc: Global, line: &[u8]) -> Result<Option<Choice>, NoMemory> {
    match line.get(7) {
        Some(b'c') => Ok(claim(line)),
        Some(b'i') => Ok(inject(line)),
        Some(b'h') => Ok(handle(line)),
        Some(b'f') => fire(alloc, line),
        Some(b'a') => ack(alloc, line),
        Some(b'p') => purge(alloc, line),
        _ => Ok(None),
    }
}

// What stands behind a name up to a byte, and what follows from that byte on.
fn cut<'l>(line: &'l [u8], name: &[u8], end: u8) -> Option<(&'l [u8], &'l [u8])> {
    let rest = line.strip_prefix(name)?;
    let at = memchr(end, rest)?;
    Some(rest.split_at(at))
}

// The number that digits may spell.
fn number(digits: &[u8]) -> u64 {
    let mut number: u64 = 0;
    for digit in digits {
        number = number.wrapping_mul(10).wrapping_add(u64::from(*digit & 15));
    }
    number
}

// The number of 32 bits that digits may spell.
fn short(digits: &[u8]) -> Option<u32> {
    u32::try_from(number(digits)).ok()
}

// The choice of a claim.
fn claim(line: &[u8]) -> Option<Choice> {
    let (interval, rest) = cut(line, b"{\"do\":\"claim\",\"interval\":", b',')?;
    let (_, rest) = cut(rest, b",\"n\":", b',')?;
    let (worker, _) = cut(rest, b",\"worker\":", b'}')?;
    let (worker, interval) = (short(worker)?, short(interval)?);
    Some(Choice::Claim { worker, interval })
}

// The choice of an injected line.
fn inject(line: &[u8]) -> Option<Choice> {
    let (_, rest) = cut(line, b"{\"do\":\"inject\",\"key\":\"", b'"')?;
    let (_, rest) = cut(rest, b"\",\"late\":", b',')?;
    let (_, rest) = cut(rest, b",\"line\":", b',')?;
    let (_, rest) = cut(rest, b",\"n\":", b',')?;
    let (part, _) = cut(rest, b",\"part\":", b',')?;
    let part = short(part)?;
    Some(Choice::Inject { part })
}

// The choice of a handled record.
fn handle(line: &[u8]) -> Option<Choice> {
    let (id, _) = cut(line, b"{\"do\":\"handle\",\"id\":\"", b'"')?;
    let id = id_of(id)?;
    Some(Choice::Handle { id })
}

// The choice of a fired timer.
fn fire(alloc: Global, line: &[u8]) -> Result<Option<Choice>, NoMemory> {
    let Some((mark, rest)) = fired(line) else {
        return Ok(None);
    };
    match row_of(alloc, rest)? {
        Some(row) => Ok(Some(Choice::Fire { row, mark })),
        None => Ok(None),
    }
}

// The mark of a fired timer, and what follows what it made.
fn fired(line: &[u8]) -> Option<(u64, &[u8])> {
    let (_, rest) = cut(line, b"{\"do\":\"fire\",\"late\":", b',')?;
    let (mark, rest) = cut(rest, b",\"mark\":", b',')?;
    let (_, rest) = cut(rest, b",\"n\":", b',')?;
    let (_, rest) = cut(rest, b",\"out\":[", b']')?;
    Some((number(mark), rest.strip_prefix(b"]")?))
}

// The choice of an acknowledgement.
fn ack(alloc: Global, line: &[u8]) -> Result<Option<Choice>, NoMemory> {
    let Some((id, rest)) = acked(line) else {
        return Ok(None);
    };
    match row_of(alloc, rest)? {
        Some(row) => Ok(Some(Choice::Ack { row, id })),
        None => Ok(None),
    }
}

// The id of an acknowledged record, and what follows the number.
fn acked(line: &[u8]) -> Option<(RecordId, &[u8])> {
    let (id, rest) = cut(line, b"{\"do\":\"ack\",\"id\":\"", b'"')?;
    let (_, rest) = cut(rest, b"\",\"n\":", b',')?;
    Some((id_of(id)?, rest))
}

// The choice of a purge.
fn purge(alloc: Global, line: &[u8]) -> Result<Option<Choice>, NoMemory> {
    let Some((floor, rest)) = purged(line) else {
        return Ok(None);
    };
    match row_of(alloc, rest)? {
        Some(row) => Ok(Some(Choice::Purge { row, floor })),
        None => Ok(None),
    }
}

// The floor of a purge, and what follows the number.
fn purged(line: &[u8]) -> Option<(u64, &[u8])> {
    let (floor, rest) = cut(line, b"{\"do\":\"purge\",\"floor\":", b',')?;
    let (_, rest) = cut(rest, b",\"n\":", b',')?;
    Some((number(floor), rest))
}

// The row that the next two members may name.
fn row_of(alloc: Global, rest: &[u8]) -> Result<Option<RowName>, NoMemory> {
    match named(rest) {
        Some((part, text)) => row_named(alloc, part, text),
        None => Ok(None),
    }
}

// The part and the key of a row that the next two members may name.
fn named(rest: &[u8]) -> Option<(u32, &str)> {
    let (part, rest) = cut(rest, b",\"part\":", b',')?;
    let (key, _) = cut(rest, b",\"row\":\"", b'"')?;
    Some((short(part)?, std::str::from_utf8(key).ok()?))
}

// The row of this part with this text as its key.
fn row_named(alloc: Global, part: u32, text: &str) -> Result<Option<RowName>, NoMemory> {
    match key_of(alloc, text)? {
        Some(key) => Ok(Some(RowName { part, key })),
        None => Ok(None),
    }
}

// The id that bytes may be the print of.
fn id_of(bytes: &[u8]) -> Option<RecordId> {
    id_in(std::str::from_utf8(bytes).ok()?)
}
