//! A text in UTF-8, which contracts see as its bytes.
ghost use Rattle.std.specs.Prelude.{◌≡◌, ◌↔◌, ◌≤◌, length, IfOk, IfSome, IsSome, []};
ghost use Rattle.std.specs.Cmp.Lexicographic.{slice_cmp};
ghost use Rattle.std.specs.Ordering.{nat_cmp};

use crate::memory::{Duplicate, NoMemory};
use crate::short::{SHORT_MAX, ShortText};
use std::alloc::Global;
use std::cmp::Ordering;
use std::marker::Model;

// Where a text lies: in the value itself, or on the heap.
#[derive(Drop)]
enum Held {
    Short(ShortText),
    Long(String),
}

// A text on the heap takes 24 bytes and its tag, so 30 bytes of a short one cost no more room.
const _: () = prove!(std::mem::size_of::<Held>() == 32);

/// A text whose representation is its own.
#[derive(Drop)]
pub struct Text {
    held: Held,
}

impl Model for Text {
    ghost use Rattle.std.specs.Prelude.{List, ℕ};
    ghost use Rattle.mw_types.specs.Texts.{held_bytes};

    ghost Value = { List ℕ };

    ghost view = { λ t. held_bytes t.held };
}

/// The text of a key.
pub type KeyText = Text;

/// The name of a file, a stream, or a word of the command line.
pub type Name = Text;

impl Text {
    /// The empty text, which takes no memory.
    pub fn new(_alloc: Global) -> Text
        ensures empty { result ≡ [] }
    {
        Text {
            held: Held::Short(ShortText::of("")),
        }
    }

    /// A text of its own with these bytes.
    pub fn of(alloc: Global, text: &str) -> Result<Text, NoMemory>
        ensures held { IfOk result (λ made. made ≡ text.now) }
    {
        if text.len() <= SHORT_MAX {
            return Ok(Text {
                held: Held::Short(ShortText::of(text)),
            });
        }
        Ok(Text {
            held: Held::Long(String::from_str(alloc, text)?),
        })
    }

    /// The length in bytes.
    pub fn len(&self) -> usize
        ensures count { result ≡ length self.now }
    {
        self.text().len()
    }

    /// The text.
    pub fn text(&self) -> &str
        ensures bytes { result.now ≡ self.now }
    {
        match &self.held {
            Held::Short(text) => text.text(),
            Held::Long(text) => text.as_str(),
        }
    }

    /// An equal text where this one has at most 30 bytes, which takes no memory, and none where it has
    /// more.
    pub fn short_copy(&self) -> Option<Text>
        ensures copy { IfSome result (λ text. text ≡ self.now) }
        ensures short { IsSome result ↔ (length self.now ≤ 30) }
    {
        let text = self.text();
        if text.len() > SHORT_MAX {
            return None;
        }
        Some(Text {
            held: Held::Short(ShortText::of(text)),
        })
    }
}

impl Duplicate for Text {
    fn copy(&self, alloc: Global) -> Result<Text, NoMemory> {
        match &self.held {
            Held::Short(text) => Ok(Text {
                held: Held::Short(text.again()),
            }),
            Held::Long(text) => Ok(Text {
                held: Held::Long(String::from_str(alloc, text.as_str())?),
            }),
        }
    }
}

impl PartialEq for Text {
    ghost use Rattle.std.specs.Prelude.{nat_eq};
    ghost use Rattle.std.specs.Cmp.Lexicographic.{pointwise, nat_list_eq_equiv};
    ghost use Rattle.std.specs.Cmp.{partial_equiv_from_equiv};

    ghost eq = { pointwise nat_eq };

    ghost laws = { partial_equiv_from_equiv nat_list_eq_equiv };

    fn eq(&self, other: &Text) -> bool {
        self.cmp(other).is_eq()
    }
}

impl Eq for Text {
    ghost use Rattle.std.specs.Cmp.Lexicographic.{nat_list_eq_equiv};

    ghost laws = { nat_list_eq_equiv };
}

impl PartialOrd for Text {
    ghost use Rattle.std.specs.Cmp.Lexicographic.{slice_cmp};
    ghost use Rattle.std.specs.Ordering.{nat_cmp, as_partial_cmp};
    ghost use Rattle.std.specs.Cmp.{partial_order_from_own_ties};
    ghost use Rattle.std.specs.Cmp.Rules.{comparing};
    ghost use Rattle.std.proofs.Common.{rules};

    ghost partial_cmp = { as_partial_cmp (slice_cmp nat_cmp) };

    ghost laws = { partial_order_from_own_ties (Prim.search (comparing, rules)) (Prim.search (comparing, rules)) };

    fn partial_cmp(&self, other: &Text) -> Option<Ordering> {
        Some(self.cmp(other))
    }
}

impl Ord for Text {
    ghost use Rattle.std.specs.Cmp.Lexicographic.{slice_cmp};
    ghost use Rattle.std.specs.Ordering.{nat_cmp};
    ghost use Rattle.std.specs.Cmp.Rules.{comparing};
    ghost use Rattle.std.proofs.Common.{rules};

    ghost cmp = { slice_cmp nat_cmp };

    ghost total = { Prim.search (comparing, rules) };

    ghost matches_partial_cmp = { Prim.search (comparing, rules) };

    ghost matches_eq = { Prim.search (comparing, rules) };

    // A search asks this at each step, so it is inlined there.
    #[inline(always)]
    fn cmp(&self, other: &Text) -> Ordering {
        match (&self.held, &other.held) {
            (Held::Short(one), Held::Short(two)) => one.order(two),
            _ => order(self, other),
        }
    }
}

// How two texts stand of which one is long. It stays out of the searches, which need it seldom.
#[inline(never)]
fn order(one: &Text, two: &Text) -> Ordering
    ensures { result ≡ slice_cmp nat_cmp one.now two.now }
{
    one.text().cmp(two.text())
}
