//! A list whose copies share memory, which contracts see as that list.
ghost use Rattle.std.specs.Prelude.{◌≡◌, ◌==◌, ◌++◌, ◌∷◌, ◌<◌, ◌≤◌, [], length, take, drop, slice_get, slice_set, insert, remove, IfOk, OnErr, OnOk, option_copied};
ghost use Rattle.std.specs.Arc.{arc_value};
ghost use Rattle.std.specs.Cmp.Lexicographic.{pointwise};
ghost use Rattle.mw_types.specs.Lists.{items};

use crate::memory::{Duplicate, NoMemory};
use crate::tree::{Shared, leaf_with_more, tree_of};
use std::alloc::Global;
use std::marker::Model;
use std::sync::Arc;

// How many elements a list holds itself.
const FEW: usize = 16;

/// A list whose copies share memory where it is long.
#[derive(Drop)]
pub struct SharedList<X> {
    alloc: Global,
    body: Body<X>,
}

#[derive(Drop)]
enum Body<X> {
    Few(Vec<X>),
    Many(Shared<X>),
}

impl<X> Body<X> {
    // Whether it holds its elements itself, and can hold one more.
    fn has_room(&self) -> bool {
        match self {
            Body::Few(xs) => xs.len() < FEW,
            Body::Many(_) => false,
        }
    }
}

impl<X: Copy + Drop> Body<X> {
    // A tree of the elements with one more at a place.
    fn with_more(&self, alloc: Global, at: usize, x: X) -> Result<Shared<X>, NoMemory>
        requires { at ≤ length (items self.now) }
        ensures { IfOk result (λ t. (arc_value t).0 ≡ insert (items self.now) at x) }
    {
        match self {
            Body::Few(xs) => leaf_with_more(alloc, xs, at, x),
            Body::Many(tree) => tree.with_more(alloc, at, x),
        }
    }

    // Appends the elements to a vector.
    fn put(&self, all: &mut Vec<X>) -> Result<(), NoMemory>
        ensures { OnOk result (all.new.items ≡ all.old.items ++ items self.now) }
    {
        match self {
            Body::Few(xs) => {
                all.extend_from_slice(xs)?;
                Ok(())
            }
            Body::Many(tree) => tree.put(all),
        }
    }
}

impl<X> Model for SharedList<X> {
    ghost use Rattle.std.specs.Prelude.{List};

    ghost Value = { List X };

    ghost use Rattle.mw_types.specs.Lists.{items};

    ghost view = { λ list. items list.body };
}

impl<X> SharedList<X> {
    /// The empty list, which takes no memory.
    pub fn new(alloc: Global) -> Self
        ensures empty { result ≡ [] }
    {
        SharedList {
            alloc,
            body: Body::Few(Vec::new(alloc)),
        }
    }

    /// How many elements the list has.
    pub fn len(&self) -> usize
        ensures count { result ≡ length self.now }
    {
        match &self.body {
            Body::Few(xs) => xs.len(),
            Body::Many(tree) => tree.len(),
        }
    }

    /// Whether the list has no element.
    pub fn is_empty(&self) -> bool
        ensures { result ≡ (length self.now == 0) }
    {
        self.len() == 0
    }

    /// The element at a place, counted from 0, or none past the end.
    pub fn get(&self, at: usize) -> Option<&X>
        ensures element { option_copied result ≡ slice_get self.now at }
    {
        match &self.body {
            Body::Few(xs) => xs.get(at),
            Body::Many(tree) => tree.get(at),
        }
    }
}

impl<X: Copy + Drop> SharedList<X> {
    /// Some of the elements in order from a place on, which lie side by side.
    pub fn run_at(&self, at: usize) -> &[X]
        requires { at < length self.now }
        ensures some { 0 < length result.now }
        ensures here { result.now ≡ take (length result.now) (drop at self.now) }
    {
        match &self.body {
            Body::Few(xs) => &xs[at..],
            Body::Many(tree) => tree.run_at(at),
        }
    }

    /// The list of a vector's elements.
    pub fn of(alloc: Global, xs: Vec<X>) -> Result<Self, NoMemory>
        ensures made { IfOk result (λ list. list ≡ xs.items) }
    {
        if xs.len() <= FEW {
            return Ok(SharedList {
                alloc,
                body: Body::Few(xs),
            });
        }
        Ok(SharedList {
            alloc,
            body: Body::Many(tree_of(alloc, &xs)?),
        })
    }

    /// The elements in order, in a vector of their own.
    pub fn flat(&self, alloc: Global) -> Result<Vec<X>, NoMemory>
        ensures elements { IfOk result (λ xs. xs.items ≡ self.now) }
    {
        let mut xs = Vec::with_capacity(alloc, self.len())?;
        self.body.put(&mut xs)?;
        Ok(xs)
    }

    /// Appends one element.
    pub fn push(&mut self, x: X) -> Result<(), NoMemory>
        ensures appended { OnOk result (self.new ≡ self.old ++ x ∷ []) }
        ensures unchanged { OnErr result (self.new ≡ self.old) }
    {
        self.insert(self.len(), x)
    }

    /// Puts an element at a place, counted from 0; those from there on move up by one.
    pub fn insert(&mut self, at: usize, x: X) -> Result<(), NoMemory>
        requires { at ≤ length self.old }
        ensures inserted { OnOk result (self.new ≡ insert self.old at x) }
        ensures unchanged { OnErr result (self.new ≡ self.old) }
    {
        if self.body.has_room() {
            return self.insert_into_few(at, x);
        }
        let tree = self.body.with_more(self.alloc, at, x)?;
        self.body = Body::Many(tree);
        Ok(())
    }

    // The same where the list holds its elements itself.
    fn insert_into_few(&mut self, at: usize, x: X) -> Result<(), NoMemory>
        requires { at ≤ length self.old }
        ensures inserted { OnOk result (self.new ≡ insert self.old at x) }
        ensures unchanged { OnErr result (self.new ≡ self.old) }
    {
        match &mut self.body {
            Body::Few(xs) => {
                xs.insert(at, x)?;
                Ok(())
            }
            Body::Many(_) => Err(NoMemory),
        }
    }

    /// Puts another element in the place of the one that is there.
    pub fn set(&mut self, at: usize, x: X) -> Result<(), NoMemory>
        requires { at < length self.old }
        ensures changed { OnOk result (self.new ≡ slice_set self.old at x) }
        ensures unchanged { OnErr result (self.new ≡ self.old) }
    {
        if let Body::Many(tree) = &self.body {
            let tree = tree.with_other(self.alloc, at, x)?;
            self.body = Body::Many(tree);
            return Ok(());
        }
        self.set_of_few(at, x)
    }

    // The same where the list holds its elements itself.
    fn set_of_few(&mut self, at: usize, x: X) -> Result<(), NoMemory>
        requires { at < length self.old }
        ensures changed { OnOk result (self.new ≡ slice_set self.old at x) }
        ensures unchanged { OnErr result (self.new ≡ self.old) }
    {
        match &mut self.body {
            Body::Few(xs) => {
                xs[at] = x;
                Ok(())
            }
            Body::Many(_) => Err(NoMemory),
        }
    }

    /// Takes the element at a place away; those after it move down by one.
    pub fn remove(&mut self, at: usize) -> Result<(), NoMemory>
        requires { at < length self.old }
        ensures removed { OnOk result (self.new ≡ remove self.old at) }
        ensures unchanged { OnErr result (self.new ≡ self.old) }
    {
        if let Body::Many(tree) = &self.body {
            let tree = tree.without(self.alloc, at)?;
            self.body = Body::Many(tree);
            return Ok(());
        }
        self.remove_from_few(at)
    }

    // The same where the list holds its elements itself.
    fn remove_from_few(&mut self, at: usize) -> Result<(), NoMemory>
        requires { at < length self.old }
        ensures removed { OnOk result (self.new ≡ remove self.old at) }
        ensures unchanged { OnErr result (self.new ≡ self.old) }
    {
        match &mut self.body {
            Body::Few(xs) => {
                xs.remove(at);
                Ok(())
            }
            Body::Many(_) => Err(NoMemory),
        }
    }
}

impl<X: PartialEq> PartialEq for SharedList<X> {
    ghost use Rattle.std.specs.Cmp.Lexicographic.{pointwise, lists_per};

    ghost eq = { pointwise X.eq };

    ghost laws = { lists_per X.PartialEq.laws };

    fn eq(&self, other: &SharedList<X>) -> bool {
        if self.len() != other.len() {
            return false;
        }
        are_same(self, other)
    }
}

// Whether two lists as long as each other have equal elements.
fn are_same<X: PartialEq>(a: &SharedList<X>, b: &SharedList<X>) -> bool
    requires { length a.now ≡ length b.now }
    ensures { result ≡ pointwise X.eq a.now b.now }
{
    for at in 0..a.len() {
        let (Some(x), Some(y)) = (a.get(at), b.get(at)) else {
            return false;
        };
        if x != y {
            return false;
        }
    }
    true
}

impl<X: Eq> Eq for SharedList<X> {
    ghost use Rattle.std.proofs.lemmas.Cmp.{lists_equiv};

    ghost laws = { lists_equiv X.Eq.laws };
}

impl<X: Copy + Drop> Duplicate for SharedList<X> {
    fn copy(&self, alloc: Global) -> Result<SharedList<X>, NoMemory> {
        let body = match &self.body {
            Body::Few(xs) => Body::Few(Vec::from_slice(alloc, xs)?),
            Body::Many(tree) => Body::Many(Arc::try_clone(tree)?),
        };
        Ok(SharedList { alloc, body })
    }
}
