//! A key: the bytes by which a stream's records are told apart, Akidau et al., VLDB 2013, section 4.2.
ghost use Rattle.std.specs.Prelude.{◌≡◌, ◌↔◌, ◌⊎◌, ◌<◌, ◌≤◌, [], length, IfOk, IfSome, IsErrOf, IsSome};

use crate::memory::{Duplicate, NoMemory};
use crate::refusal::KeyRefusal;
use crate::seq::Seq;
use crate::text::Text;
use std::alloc::Global;
use std::cmp::Ordering;
use std::marker::Model;

/// A key of at most 256 bytes, which contracts see as its bytes.
#[derive(Drop)]
pub struct Key {
    text: Text,
}

impl Model for Key {
    ghost use Rattle.std.specs.Prelude.{List, ℕ, ◌≤◌, length};

    ghost Value = { List ℕ };

    ghost view = { λ key. key.text };

    ghost invariant = { λ key. length key.text ≤ 256 };
}

/// A list of keys.
pub type KeyList = Seq<Key>;

/// The greatest length of a key, in bytes.
pub const KEY_MAX: usize = 256;

impl Key {
    /// The key with this text. `BadLength` comes exactly where the text has not 1 to 256 bytes.
    pub fn of(alloc: Global, text: &str) -> Result<Key, KeyRefusal>
        ensures held { IfOk result (λ key. key ≡ text.now) }
        ensures within { IfOk result (λ key. (0 < length key) × (length key ≤ 256)) }
        ensures bad_length { IsErrOf result KeyRefusal.BadLength ↔
            ((length text.now ≡ 0) ⊎ (256 < length text.now)) }
    {
        if text.is_empty() || text.len() > KEY_MAX {
            return Err(KeyRefusal::BadLength);
        }
        Ok(Key {
            text: Text::of(alloc, text)?,
        })
    }

    /// The empty key, which names an injector's row.
    pub fn none(alloc: Global) -> Key
        ensures empty { result ≡ [] }
    {
        Key {
            text: Text::new(alloc),
        }
    }

    /// The key's text.
    pub fn text(&self) -> &str
        ensures bytes { result.now ≡ self.now }
        ensures short { length self.now ≤ 256 }
    {
        self.text.text()
    }

    /// An equal key where this one has at most 30 bytes, which takes no memory, and none where it has
    /// more.
    pub fn short_copy(&self) -> Option<Key>
        ensures copy { IfSome result (λ key. key ≡ self.now) }
        ensures short { IsSome result ↔ (length self.now ≤ 30) }
    {
        match self.text.short_copy() {
            Some(text) => Some(Key { text }),
            None => None,
        }
    }
}

impl Duplicate for Key {
    fn copy(&self, alloc: Global) -> Result<Key, NoMemory> {
        Ok(Key {
            text: self.text.copy(alloc)?,
        })
    }
}

impl PartialEq for Key {
    ghost use Rattle.std.specs.Prelude.{nat_eq};
    ghost use Rattle.std.specs.Cmp.Lexicographic.{pointwise, nat_list_eq_equiv};
    ghost use Rattle.std.specs.Cmp.{partial_equiv_from_equiv};

    ghost eq = { pointwise nat_eq };

    ghost laws = { partial_equiv_from_equiv nat_list_eq_equiv };

    fn eq(&self, other: &Key) -> bool {
        self.text == other.text
    }
}

impl Eq for Key {
    ghost use Rattle.std.specs.Cmp.Lexicographic.{nat_list_eq_equiv};

    ghost laws = { nat_list_eq_equiv };
}

impl PartialOrd for Key {
    ghost use Rattle.std.specs.Cmp.Lexicographic.{slice_cmp};
    ghost use Rattle.std.specs.Ordering.{nat_cmp, as_partial_cmp};
    ghost use Rattle.std.specs.Cmp.{partial_order_from_own_ties};
    ghost use Rattle.std.specs.Cmp.Rules.{comparing};
    ghost use Rattle.std.proofs.Common.{rules};

    ghost partial_cmp = { as_partial_cmp (slice_cmp nat_cmp) };

    ghost laws = { partial_order_from_own_ties (Prim.search (comparing, rules)) (Prim.search (comparing, rules)) };

    fn partial_cmp(&self, other: &Key) -> Option<Ordering> {
        Some(self.cmp(other))
    }
}

impl Ord for Key {
    ghost use Rattle.std.specs.Cmp.Lexicographic.{slice_cmp};
    ghost use Rattle.std.specs.Ordering.{nat_cmp};
    ghost use Rattle.std.specs.Cmp.Rules.{comparing};
    ghost use Rattle.std.proofs.Common.{rules};

    ghost cmp = { slice_cmp nat_cmp };

    ghost total = { Prim.search (comparing, rules) };

    ghost matches_partial_cmp = { Prim.search (comparing, rules) };

    ghost matches_eq = { Prim.search (comparing, rules) };

    fn cmp(&self, other: &Key) -> Ordering {
        self.text.cmp(&other.text)
    }
}

/// The cuts of one part: where its intervals of keys begin, but for the first.
#[derive(Drop, PartialEq, Eq)]
pub struct PartCuts {
    /// The part's number.
    pub part: u32,
    /// The cuts, ascending.
    pub cuts: KeyList,
}

/// A list of the parts' cuts.
pub type PartCutsList = Seq<PartCuts>;
