//! Values that are written to bytes and read from them: numbers and truth values.
ghost use Rattle.std.specs.Prelude.{◌≡◌, ◌++◌, ◌<◌, ◌^◌, ⊤, FitsSigned, OnOk};
ghost use Rattle.std.specs.Int.{w16, w32, w64, to_be_bytes};
ghost use Rattle.row_parts.specs.Spelling.{signed_spelling, flag_spelling};
ghost use Rattle.row_parts.specs.Reading.{Gives, number_at, signed_at, flag_at};

use crate::refusal::StateRefusal;
use mw_types::NoMemory;
use std::alloc::Global;

/// A value that is written to bytes and read from them.
pub trait Spelled: Drop {
    ghost use Rattle.std.specs.Prelude.{List, ℕ, Option};

    /// Its bytes.
    ghost spelling: { Self → List ℕ };

    /// What its numbers are by their types.
    ghost typed: { Self → Type 0 };

    /// The value at the front of some bytes, and the bytes after it.
    ghost reading: { List ℕ → Option (Self × List ℕ) };

    /// Appends its bytes.
    fn put(&self, out: &mut Vec<u8>) -> Result<(), NoMemory>
        ensures written { OnOk result (out.new.items ≡ out.old.items ++ spelling self.now) }
        ensures typed { OnOk result (typed self.now) };

    /// Reads one from the front, and answers the bytes after it too.
    fn take(alloc: Global, bytes: &[u8]) -> Result<(Self, &[u8]), StateRefusal>
        ensures { Gives (λ x. (x.0, x.1.now)) result (reading bytes.now) };
}

impl Spelled for u16 {
    ghost spelling = { to_be_bytes w16 };

    ghost typed = { λ n. n < 2 ^ 16 };

    ghost reading = { number_at w16 };

    fn put(&self, out: &mut Vec<u8>) -> Result<(), NoMemory> {
        out.extend_from_slice(&self.to_be_bytes())?;
        Ok(())
    }

    fn take(_alloc: Global, bytes: &[u8]) -> Result<(u16, &[u8]), StateRefusal> {
        if bytes.len() < 2 {
            return Err(StateRefusal::Damaged);
        }
        let (front, rest) = bytes.split_at(2);
        let number = u16::from_be_bytes([front[0], front[1]]);
        Ok((number, rest))
    }
}

impl Spelled for u32 {
    ghost spelling = { to_be_bytes w32 };

    ghost typed = { λ n. n < 2 ^ 32 };

    ghost reading = { number_at w32 };

    fn put(&self, out: &mut Vec<u8>) -> Result<(), NoMemory> {
        out.extend_from_slice(&self.to_be_bytes())?;
        Ok(())
    }

    fn take(_alloc: Global, bytes: &[u8]) -> Result<(u32, &[u8]), StateRefusal> {
        if bytes.len() < 4 {
            return Err(StateRefusal::Damaged);
        }
        let (front, rest) = bytes.split_at(4);
        let number = u32::from_be_bytes([front[0], front[1], front[2], front[3]]);
        Ok((number, rest))
    }
}

impl Spelled for u64 {
    ghost spelling = { to_be_bytes w64 };

    ghost typed = { λ n. n < 2 ^ 64 };

    ghost reading = { number_at w64 };

    fn put(&self, out: &mut Vec<u8>) -> Result<(), NoMemory> {
        out.extend_from_slice(&self.to_be_bytes())?;
        Ok(())
    }

    fn take(_alloc: Global, bytes: &[u8]) -> Result<(u64, &[u8]), StateRefusal> {
        if bytes.len() < 8 {
            return Err(StateRefusal::Damaged);
        }
        let (front, rest) = bytes.split_at(8);
        let number = u64::from_be_bytes([
            front[0], front[1], front[2], front[3], front[4], front[5], front[6], front[7],
        ]);
        Ok((number, rest))
    }
}

impl Spelled for i64 {
    ghost spelling = { signed_spelling };

    ghost typed = { FitsSigned w64 };

    ghost reading = { signed_at };

    fn put(&self, out: &mut Vec<u8>) -> Result<(), NoMemory> {
        out.extend_from_slice(&self.to_be_bytes())?;
        Ok(())
    }

    #[tactic(auto, unfolding(crate::specs::Reading::signed_at))]
    fn take(alloc: Global, bytes: &[u8]) -> Result<(i64, &[u8]), StateRefusal> {
        let (number, rest) = u64::take(alloc, bytes)?;
        Ok((number.cast_signed(), rest))
    }
}

impl Spelled for bool {
    ghost spelling = { flag_spelling };

    ghost typed = { λ _. ⊤ };

    ghost reading = { flag_at };

    fn put(&self, out: &mut Vec<u8>) -> Result<(), NoMemory> {
        out.push(if *self { 1 } else { 0 })?;
        Ok(())
    }

    #[tactic(auto, unfolding(crate::specs::Reading::flag_at))]
    fn take(_alloc: Global, bytes: &[u8]) -> Result<(bool, &[u8]), StateRefusal> {
        match bytes {
            [0, rest @ ..] => Ok((false, rest)),
            [1, rest @ ..] => Ok((true, rest)),
            _ => Err(StateRefusal::Damaged),
        }
    }
}
