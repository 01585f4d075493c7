//! A short text, which lies in the value itself.
ghost use Rattle.std.specs.Prelude.{◌≡◌, ◌≤◌, ◌<◌, ℕ, [], length, slice_index};
ghost use Rattle.std.specs.Cmp.Lexicographic.{slice_cmp};
ghost use Rattle.std.specs.Int.{from_be_bytes, w64, w128};
ghost use Rattle.std.specs.Ordering.{nat_cmp};

use std::cmp::Ordering;
use std::marker::Model;

/// The greatest length of a short text, in bytes.
pub(crate) const SHORT_MAX: usize = 30;

/// A text of at most 30 bytes, and zeros after it.
#[derive(Drop)]
pub(crate) struct ShortText {
    len: u8,
    bytes: [u8; SHORT_MAX],
}

impl Model for ShortText {
    ghost use Rattle.std.specs.Prelude.{◌≡◌, ◌≤◌, ◌-◌, length, take, drop, replicate, List, ℕ, IsUtf8};

    ghost Value = { List ℕ };

    ghost view = { λ t. take t.len t.bytes };

    ghost invariant = { λ t. (t.len ≤ 30) × (length t.bytes ≡ 30) × ∥ IsUtf8 (take t.len t.bytes) ∥₁
        × (drop t.len t.bytes ≡ replicate (30 - t.len) 0) };
}

impl ShortText {
    // The text with these bytes.
    pub(crate) fn of(text: &str) -> ShortText
        requires { length text.now ≤ 30 }
        ensures { result ≡ text.now }
    {
        let mut bytes = [0; SHORT_MAX];
        bytes[..text.len()].copy_from_slice(text.as_bytes());
        ShortText {
            len: text.len() as u8,
            bytes,
        }
    }

    // The text again.
    pub(crate) fn again(&self) -> ShortText
        ensures { result ≡ self.now }
    {
        ShortText {
            len: self.len,
            bytes: self.bytes,
        }
    }

    // The text.
    pub(crate) fn text(&self) -> &str
        ensures { result.now ≡ self.now }
    {
        let bytes = &self.bytes[..self.len as usize];
        unsafe { std::str::from_utf8_unchecked(bytes) }
    }

    // How this text stands to another one. Most texts differ in their first bytes.
    pub(crate) fn order(&self, other: &ShortText) -> Ordering
        ensures { result ≡ slice_cmp nat_cmp self.now other.now }
    {
        let (one, two) = (front(&self.bytes), front(&other.bytes));
        if one != two {
            return one.cmp(&two);
        }
        if self.len.min(other.len) <= 8 {
            return self.len.cmp(&other.len);
        }
        self.order_past(other)
    }

    // The same, by twice as many bytes. It stays out of the searches, which need it seldom.
    #[inline(never)]
    fn order_past(&self, other: &ShortText) -> Ordering
        ensures { result ≡ slice_cmp nat_cmp self.now other.now }
    {
        let (one, two) = (wide_front(&self.bytes), wide_front(&other.bytes));
        if one != two {
            return one.cmp(&two);
        }
        if self.len.min(other.len) <= 16 {
            return self.len.cmp(&other.len);
        }
        self.text().cmp(other.text())
    }
}

// The first eight bytes as one number.
fn front(bytes: &[u8; SHORT_MAX]) -> u64
    ensures number { result ≡ from_be_bytes w64 bytes.now }
    ensures bytes { (at : ℕ) → slice_index bytes.now at < 256 }
{
    u64::from_be_bytes([
        bytes[0], bytes[1], bytes[2], bytes[3], bytes[4], bytes[5], bytes[6], bytes[7],
    ])
}

// The first sixteen bytes as one number.
fn wide_front(bytes: &[u8; SHORT_MAX]) -> u128
    ensures number { result ≡ from_be_bytes w128 bytes.now }
    ensures bytes { (at : ℕ) → slice_index bytes.now at < 256 }
{
    u128::from_be_bytes([
        bytes[0], bytes[1], bytes[2], bytes[3], bytes[4], bytes[5], bytes[6], bytes[7], bytes[8],
        bytes[9], bytes[10], bytes[11], bytes[12], bytes[13], bytes[14], bytes[15],
    ])
}
