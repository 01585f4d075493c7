//! A list of values, which contracts see as that list.
ghost use Rattle.std.specs.Fn.{CalledAt};
ghost use Rattle.std.specs.List.Retain.{IsFiltered};
ghost use Rattle.std.specs.Prelude.{◌≡◌, ◌==◌, ◌++◌, ◌∷◌, ◌↔◌, ◌<◌, ◌≤◌, ◌-◌, [], length, take, slice_get, slice_set, insert, remove, IfOk, OnErr, OnOk, IsSome, option_copied, option_to_list};

use crate::memory::{Duplicate, NoMemory};
use std::alloc::Global;
use std::marker::Model;

/// A list whose representation is its own.
#[derive(Drop)]
pub struct Seq<X> {
    items: Vec<X>,
}

impl<X> Model for Seq<X> {
    ghost use Rattle.std.specs.Prelude.{List};

    ghost Value = { List X };

    ghost view = { λ list. list.items.items };
}

/// A list of bytes.
pub type Bytes = Seq<u8>;

/// A list of numbers of intervals or parts.
pub type NumberList = Seq<u32>;

/// A list of numbers of calls, from 0.
pub type CallList = Seq<u64>;

impl<X> Seq<X> {
    /// The empty list, which takes no memory.
    pub fn new(alloc: Global) -> Self
        ensures empty { result ≡ [] }
    {
        Seq {
            items: Vec::new(alloc),
        }
    }

    /// Appends one element.
    pub fn push(&mut self, x: X) -> Result<(), NoMemory>
    where
        X: Drop,
        ensures appended { OnOk result (self.new ≡ self.old ++ x ∷ []) }
        ensures unchanged { OnErr result (self.new ≡ self.old) }
    {
        self.items.push(x)?;
        Ok(())
    }

    /// Takes the last element away.
    pub fn pop(&mut self) -> Option<X>
        ensures last { self.old ≡ self.new ++ option_to_list result }
        ensures some { IsSome result ↔ (0 < length self.old) }
        ensures rest { self.new ≡ take (length self.old - 1) self.old }
    {
        self.items.pop()
    }

    /// Puts an element at a place, counted from 0; those from there on move up by one.
    pub fn insert(&mut self, at: usize, x: X) -> Result<(), NoMemory>
    where
        X: Drop,
        requires { at ≤ length self.old }
        ensures inserted { OnOk result (self.new ≡ insert self.old at x) }
        ensures unchanged { OnErr result (self.new ≡ self.old) }
    {
        self.items.insert(at, x)?;
        Ok(())
    }

    /// Takes the element at a place away; those after it move down by one.
    pub fn remove(&mut self, at: usize) -> X
        requires { at < length self.old }
        ensures element { slice_get self.old at ≡ Some result }
        ensures removed { self.new ≡ remove self.old at }
    {
        self.items.remove(at)
    }

    /// Puts another element in the place of the one that is there.
    pub fn set(&mut self, at: usize, x: X)
    where
        X: Drop,
        requires { at < length self.old }
        ensures { self.new ≡ slice_set self.old at x }
    {
        self.items[at] = x;
    }

    /// Keeps the elements that pass a test.
    pub fn retain<F: FnMut(&X) -> bool>(&mut self, f: F)
    where
        X: Drop,
        requires { F.IsAlwaysCallable f }
        ensures { IsFiltered (CalledAt F.FnMut) f self.old self.new }
    {
        self.items.retain(f);
    }

    /// The list of a vector's elements.
    pub fn from_vec(items: Vec<X>) -> Self
        ensures { result ≡ items.items }
    {
        Seq { items }
    }

    /// The elements in order, as a vector.
    pub fn into_vec(self) -> Vec<X>
        ensures { result.items ≡ self }
    {
        self.items
    }

    /// How many elements the list has.
    pub fn len(&self) -> usize
        ensures count { result ≡ length self.now }
    {
        self.items.len()
    }

    /// Whether the list has no element.
    pub fn is_empty(&self) -> bool
        ensures { result ≡ (length self.now == 0) }
    {
        self.items.is_empty()
    }

    /// The element at a place, counted from 0, or none past the end.
    pub fn get(&self, at: usize) -> Option<&X>
        ensures element { option_copied result ≡ slice_get self.now at }
    {
        self.items.get(at)
    }

    /// The elements in order.
    pub fn as_slice(&self) -> &[X]
        ensures elements { result.now ≡ self.now }
    {
        self.items.as_slice()
    }
}

impl<X: PartialEq> PartialEq for Seq<X> {
    ghost use Rattle.std.specs.Cmp.Lexicographic.{pointwise, lists_per};

    ghost eq = { pointwise X.eq };

    ghost laws = { lists_per X.PartialEq.laws };

    fn eq(&self, other: &Seq<X>) -> bool {
        self.items == other.items
    }
}

impl<X: Eq> Eq for Seq<X> {
    ghost use Rattle.std.proofs.lemmas.Cmp.{lists_equiv};

    ghost laws = { lists_equiv X.Eq.laws };
}

impl<X: Duplicate> Duplicate for Seq<X> {
    fn copy(&self, alloc: Global) -> Result<Seq<X>, NoMemory> {
        Ok(Seq {
            items: X::copy_all(&self.items, alloc)?,
        })
    }
}
