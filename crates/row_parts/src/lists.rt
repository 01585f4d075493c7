//! Lists that are written to bytes and read from them.
ghost use Rattle.std.specs.Prelude.{◌≡◌, ◌++◌, ◌∷◌, ◌<◌, ◌^◌, [], length, All, OnOk};
ghost use Rattle.std.specs.List.{flat_map};
ghost use Rattle.std.specs.Ordering.{is_lt};
ghost use Rattle.row_parts.specs.Spelling.{list_spelling};
ghost use Rattle.row_parts.specs.Reading.{Gives, times_at, list_at, ascends, ascending_at};

use crate::refusal::StateRefusal;
use crate::spelled::Spelled;
use mw_types::{NoMemory, Seq};
use std::alloc::Global;

/// A value that stands in order in its lists.
pub trait Ranked: Spelled {
    ghost use Rattle.std.specs.declared.cmp.Ordering.{Ordering};
    ghost use Rattle.std.specs.Cmp.{IsTotalOrder};

    /// The order.
    ghost rank: { Self → Self → Ordering };

    /// Whether it stands before another.
    fn is_below(&self, other: &Self) -> bool
        ensures { result ≡ is_lt (rank self.now other.now) };

    /// Each two values have one order.
    ghost total: { IsTotalOrder rank };
}

/// Appends the bytes of a list. Refuses only where memory ran out, and may then have appended some.
pub fn put_list<X: Spelled>(out: &mut Vec<u8>, xs: &[X]) -> Result<(), NoMemory>
    requires { length xs.now < 2 ^ 32 }
    ensures written { let spelt = list_spelling X.spelling xs.now in
        OnOk result (out.new.items ≡ out.old.items ++ spelt) }
    ensures typed { OnOk result (All X.typed xs.now) }
{
    (xs.len() as u32).put(out)?;
    put_each(out, xs)
}

// Appends the bytes of each element.
fn put_each<X: Spelled>(out: &mut Vec<u8>, xs: &[X]) -> Result<(), NoMemory>
    ensures written { OnOk result (out.new.items ≡ out.old.items ++ flat_map X.spelling xs.now) }
    ensures typed { OnOk result (All X.typed xs.now) }
{
    for x in xs {
        x.put(out)?;
    }
    Ok(())
}

/// A value whose bytes are written together with those of the next three in its list.
pub trait InFours: Spelled {
    /// Appends the bytes of four, this one first.
    fn put_four(
        &self,
        second: &Self,
        third: &Self,
        fourth: &Self,
        out: &mut Vec<u8>,
    ) -> Result<(), NoMemory>
        ensures written { let four = self.now ∷ second.now ∷ third.now ∷ fourth.now ∷ [] in
            OnOk result (out.new.items ≡ out.old.items ++ flat_map Self.spelling four) }
        ensures typed { let four = self.now ∷ second.now ∷ third.now ∷ fourth.now ∷ [] in
            OnOk result (All Self.typed four) };
}

/// Appends the bytes of a list, as `put_list` does, four elements at once. Refuses only where memory ran
/// out, and may then have appended some.
pub fn put_in_fours<X: InFours>(out: &mut Vec<u8>, xs: &[X]) -> Result<(), NoMemory>
    requires { length xs.now < 2 ^ 32 }
    ensures written { let spelt = list_spelling X.spelling xs.now in
        OnOk result (out.new.items ≡ out.old.items ++ spelt) }
    ensures typed { OnOk result (All X.typed xs.now) }
{
    (xs.len() as u32).put(out)?;
    let mut rest = xs;
    while let [first, second, third, fourth, after @ ..] = rest {
        first.put_four(second, third, fourth, out)?;
        rest = after;
    }
    put_each(out, rest)
}

// Reads as many elements as were counted; each is read before room is made for it.
fn take_times<X: Spelled>(
    alloc: Global,
    count: u32,
    bytes: &[u8],
) -> Result<(Seq<X>, &[u8]), StateRefusal>
    ensures { Gives (λ x. (x.0, x.1.now)) result (times_at X.reading count bytes.now) }
{
    let mut xs = Seq::new(alloc);
    let mut rest = bytes;
    for _ in 0..count {
        let (x, after) = X::take(alloc, rest)?;
        xs.push(x)?;
        rest = after;
    }
    Ok((xs, rest))
}

/// Reads a list from the front, and answers the bytes after it too. Refuses bytes at whose front no
/// list stands.
#[tactic(auto, unfolding(crate::specs::Reading::list_at))]
pub fn take_list<X: Spelled>(alloc: Global, bytes: &[u8]) -> Result<(Seq<X>, &[u8]), StateRefusal>
    ensures { Gives (λ x. (x.0, x.1.now)) result (list_at X.reading bytes.now) }
{
    let (count, rest) = u32::take(alloc, bytes)?;
    take_times(alloc, count, rest)
}

// Whether each element is below the next.
fn ascend<X: Ranked>(xs: &[X]) -> bool
    ensures { result ≡ ascends X.rank xs.now }
{
    xs.is_sorted_by(|a, b| a.is_below(b))
}

/// Reads a list that stands in order from the front, and answers the bytes after it too. Refuses
/// bytes at whose front no list stands in order.
#[tactic(auto, unfolding(crate::specs::Reading::ascending_at))]
pub fn take_ascending<X: Ranked>(
    alloc: Global,
    bytes: &[u8],
) -> Result<(Seq<X>, &[u8]), StateRefusal>
    ensures { Gives (λ x. (x.0, x.1.now)) result (ascending_at X.rank X.reading bytes.now) }
{
    let (xs, rest) = take_list::<X>(alloc, bytes)?;
    if !ascend(xs.as_slice()) {
        return Err(StateRefusal::Damaged);
    }
    Ok((xs, rest))
}
