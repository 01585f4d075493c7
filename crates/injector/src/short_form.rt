//! Record lines in the short form, which are read without a JSON reader.
ghost use Rattle.std.specs.Prelude.{◌≡◌, ◌≤◌, IfOk, IfSome, Ok, decimal};
ghost use Rattle.std.specs.List.{list_all};
ghost use Rattle.std.specs.Str.{IsUtf8};
ghost use Rattle.json.specs.Run.{is_plain};
ghost use Rattle.mw_types.specs.declared.TheConstants.{INPUT_MAX};
ghost use Rattle.injector.specs.EventLines.{line_reading};
ghost use Rattle.injector.specs.Answers.{IsInput};
ghost use Rattle.injector.specs.ShortForm.{IsUnescaped};
ghost use Rattle.injector.specs.ShortForm.{short_line};

use crate::reading::LineKind;
use itoa::Buffer;
use memchr::memchr;
use mw_types::{INPUT_MAX, Key, KeyRefusal, NoMemory};
use std::alloc::Global;

// The key and the digits of a line that is in the short form.
fn parts(line: &[u8]) -> Option<(&[u8], &[u8])>
    ensures { IfSome result (λ parts. line.now ≡ short_line parts.0.now parts.1.now) }
{
    let rest = line.strip_prefix(b"{\"key\":\"")?;
    let end = memchr(b'"', rest)?;
    let (key, rest) = rest.split_at(end);
    let rest = rest.strip_prefix(b"\",\"ts\":")?;
    let digits = rest.strip_suffix(b"}")?;
    Some((key, digits))
}

// The number that these bytes may spell.
fn guess(digits: &[u8]) -> u64 {
    let mut number: u64 = 0;
    for digit in digits {
        number = number.wrapping_mul(10).wrapping_add(u64::from(*digit & 15));
    }
    number
}

// The timestamp that these digits spell.
fn stamp_of(digits: &[u8]) -> Option<u64>
    ensures spelt { IfSome result (λ stamp. digits.now ≡ decimal stamp) }
    ensures bounded { IfSome result (λ stamp. stamp ≤ INPUT_MAX) }
{
    let stamp = guess(digits);
    let mut buffer = Buffer::new();
    let spelt = buffer.format(stamp).as_bytes();
    if spelt == digits && stamp <= INPUT_MAX {
        Some(stamp)
    } else {
        None
    }
}

// Whether the byte stands for itself in JSON.
fn stands_for_itself(b: u8) -> bool
    ensures { result ≡ is_plain b }
{
    !(b == b'"' || b == b'\\' || b < b' ')
}

// Whether no byte of a key is escaped.
fn is_unescaped(key: &[u8]) -> bool
    ensures { result ≡ list_all is_plain key.now }
{
    key.iter().all(|b| stands_for_itself(*b))
}

// The text of a key with no byte that is escaped.
fn text_of(key: &[u8]) -> Option<&str>
    ensures same { IfSome result (λ text. text.now ≡ key.now) }
    ensures unescaped { IfSome result (λ text. IsUnescaped text.now) }
    ensures utf8 { IfSome result (λ text. IsUtf8 text.now) }
{
    if is_unescaped(key) {
        std::str::from_utf8(key).ok()
    } else {
        None
    }
}

/// What a line in the short form says, and none where it is spelt otherwise.
pub fn short_reading(alloc: Global, line: &[u8]) -> Result<Option<LineKind>, NoMemory>
    ensures reading { IfOk result (λ o. IfSome o (λ kind. line_reading line.now ≡ Ok kind)) }
    ensures bounded { IfOk result (λ o. IfSome o IsInput) }
{
    let Some((key, digits)) = parts(line) else {
        return Ok(None);
    };
    let Some(stamp) = stamp_of(digits) else {
        return Ok(None);
    };
    let Some(text) = text_of(key) else {
        return Ok(None);
    };
    match Key::of(alloc, text) {
        Ok(record_key) => Ok(Some(LineKind::Record {
            record_key,
            stamp,
            value: 1,
        })),
        Err(KeyRefusal::BadLength) => Ok(None),
        Err(KeyRefusal::NoMemory) => Err(NoMemory),
    }
}
