//! A balanced tree, seen as the elements of its leaves and its height.
ghost use Rattle.std.specs.Prelude.{◌≡◌, ◌+◌, ◌++◌, ◌≤◌, ◌<◌, max, IfOk, OnOk, length, take, drop, slice_get, slice_set, insert, remove, option_copied};
ghost use Rattle.std.specs.Arc.{arc_value};

use crate::memory::NoMemory;
use std::alloc::Global;
use std::marker::Model;
use std::sync::Arc;

// How many elements a leaf has at most.
const LEAF_MAX: usize = 16;

// How high a tree is at most; balanced ones are never that high.
const HEIGHT_MAX: u8 = 64;

// A tree, which several owners may share.
pub(crate) type Shared<X> = Arc<Tree<X>>;

#[cycle(tree)]
#[derive(Drop)]
pub(crate) struct Tree<X> {
    node: Node<X>,
}

#[cycle(tree)]
#[derive(Drop)]
enum Node<X> {
    Leaf(Vec<X>),
    Fork {
        height: u8,
        count: usize,
        left: Arc<Tree<X>>,
        right: Arc<Tree<X>>,
    },
}

// With the count of its owners a node takes 40 bytes.
const _: () = prove!(std::mem::size_of::<Node<u64>>() == 32);

impl<X> Model for Tree<X> {
    ghost use Rattle.std.specs.Prelude.{ℕ, List};

    ghost Value = { List X × ℕ };

    ghost use Rattle.mw_types.specs.Trees.{items_and_height, IsTree};

    ghost view = { λ tree. items_and_height tree.node };

    ghost invariant = { λ tree. IsTree tree.node };

    ghost size = { λ seen. seen.1 };

    ghost use Rattle.std.proofs.Common.{arith};

    ghost size_decreases = { λ a h. Prim.grind arith };
}

impl<X> Tree<X> {
    // How many elements the tree has.
    pub(crate) fn len(&self) -> usize
        ensures { result ≡ length self.now.0 }
    {
        match &self.node {
            Node::Leaf(xs) => xs.len(),
            Node::Fork { count, .. } => *count,
        }
    }

    // The height that the tree stores.
    fn height(&self) -> u8
        ensures height { result ≡ self.now.1 }
        ensures low { result ≤ 64 }
    {
        match &self.node {
            Node::Leaf(_) => 0,
            Node::Fork { height, .. } => *height,
        }
    }

    // The element at a place, counted from 0, or none past the end.
    pub(crate) fn get(&self, at: usize) -> Option<&X>
        ensures { option_copied result ≡ slice_get self.now.0 at }
    {
        match &self.node {
            Node::Leaf(xs) => xs.get(at),
            Node::Fork { left, right, .. } => {
                let here = left.len();
                if at < here {
                    left.get(at)
                } else {
                    right.get(at - here)
                }
            }
        }
    }
}

impl<X: Copy + Drop> Tree<X> {
    // The same elements, but for another one at a place.
    pub(crate) fn with_other(&self, alloc: Global, at: usize, x: X) -> Result<Shared<X>, NoMemory>
        requires { at < length self.now.0 }
        ensures { IfOk result (λ t. (arc_value t).0 ≡ slice_set self.now.0 at x) }
    {
        match &self.node {
            Node::Leaf(xs) => leaf_with_other(alloc, xs, at, x),
            Node::Fork { left, right, .. } => {
                let here = left.len();
                if at < here {
                    let left = left.with_other(alloc, at, x)?;
                    fork_before(alloc, left, right)
                } else {
                    let right = right.with_other(alloc, at - here, x)?;
                    fork_behind(alloc, left, right)
                }
            }
        }
    }

    // The same elements with one more at a place.
    pub(crate) fn with_more(&self, alloc: Global, at: usize, x: X) -> Result<Shared<X>, NoMemory>
        requires { at ≤ length self.now.0 }
        ensures { IfOk result (λ t. (arc_value t).0 ≡ insert self.now.0 at x) }
    {
        match &self.node {
            Node::Leaf(xs) => leaf_with_more(alloc, xs, at, x),
            Node::Fork { left, right, .. } => {
                let here = left.len();
                if at < here {
                    let left = left.with_more(alloc, at, x)?;
                    join(alloc, &left, right)
                } else {
                    let right = right.with_more(alloc, at - here, x)?;
                    join(alloc, left, &right)
                }
            }
        }
    }

    // The same elements without the one at a place.
    pub(crate) fn without(&self, alloc: Global, at: usize) -> Result<Shared<X>, NoMemory>
        requires { at < length self.now.0 }
        ensures { IfOk result (λ t. (arc_value t).0 ≡ remove self.now.0 at) }
    {
        match &self.node {
            Node::Leaf(xs) => leaf_without(alloc, xs, at),
            Node::Fork { left, right, .. } => {
                let here = left.len();
                if at < here {
                    if here == 1 {
                        return shared(right);
                    }
                    let left = left.without(alloc, at)?;
                    join(alloc, &left, right)
                } else {
                    if right.len() == 1 {
                        return shared(left);
                    }
                    let right = right.without(alloc, at - here)?;
                    join(alloc, left, &right)
                }
            }
        }
    }

    // Appends the elements to a vector.
    pub(crate) fn put(&self, all: &mut Vec<X>) -> Result<(), NoMemory>
        ensures { OnOk result (all.new.items ≡ all.old.items ++ self.now.0) }
    {
        match &self.node {
            Node::Leaf(xs) => {
                all.extend_from_slice(xs)?;
                Ok(())
            }
            Node::Fork { left, right, .. } => {
                left.put(all)?;
                right.put(all)
            }
        }
    }

    // Some of the elements in order from a place on, which lie side by side.
    pub(crate) fn run_at(&self, at: usize) -> &[X]
        requires { at < length self.now.0 }
        ensures some { 0 < length result.now }
        ensures here { result.now ≡ take (length result.now) (drop at self.now.0) }
    {
        match &self.node {
            Node::Leaf(xs) => &xs[at..],
            Node::Fork { left, right, .. } => {
                let here = left.len();
                if at < here {
                    left.run_at(at)
                } else {
                    right.run_at(at - here)
                }
            }
        }
    }
}

// A tree of the elements of a slice, whose leaves are about full.
pub(crate) fn tree_of<X: Copy + Drop>(alloc: Global, xs: &[X]) -> Result<Shared<X>, NoMemory>
    ensures { IfOk result (λ t. (arc_value t).0 ≡ xs.now) }
{
    if xs.len() <= LEAF_MAX {
        return leaf_of(alloc, xs);
    }
    let (front, back) = xs.split_at(xs.len() / 2);
    let left = tree_of(alloc, front)?;
    let right = tree_of(alloc, back)?;
    fork(alloc, left, right)
}

// The elements of a slice with one more at a place.
pub(crate) fn slice_with_more<X: Copy + Drop>(
    alloc: Global,
    xs: &[X],
    at: usize,
    x: X,
) -> Result<Vec<X>, NoMemory>
    requires { at ≤ length xs.now }
    ensures { IfOk result (λ ys. ys.items ≡ insert xs.now at x) }
{
    let Some(room) = xs.len().checked_add(1) else {
        return Err(NoMemory);
    };
    let mut ys = Vec::with_capacity(alloc, room)?;
    put_with_more(&mut ys, xs, at, x)?;
    Ok(ys)
}

// Appends the elements of a slice with one more at a place.
fn put_with_more<X: Copy + Drop>(ys: &mut Vec<X>, xs: &[X], at: usize, x: X) -> Result<(), NoMemory>
    requires { at ≤ length xs.now }
    ensures { OnOk result (ys.new.items ≡ ys.old.items ++ insert xs.now at x) }
{
    ys.extend_from_slice(&xs[..at])?;
    ys.push(x)?;
    ys.extend_from_slice(&xs[at..])?;
    Ok(())
}

// The elements of a slice without the one at a place.
fn slice_without<X: Copy + Drop>(alloc: Global, xs: &[X], at: usize) -> Result<Vec<X>, NoMemory>
    requires { at < length xs.now }
    ensures { IfOk result (λ ys. ys.items ≡ remove xs.now at) }
{
    let mut ys = Vec::with_capacity(alloc, xs.len() - 1)?;
    put_without(&mut ys, xs, at)?;
    Ok(ys)
}

// Appends the elements of a slice without the one at a place.
fn put_without<X: Copy + Drop>(ys: &mut Vec<X>, xs: &[X], at: usize) -> Result<(), NoMemory>
    requires { at < length xs.now }
    ensures { OnOk result (ys.new.items ≡ ys.old.items ++ remove xs.now at) }
{
    ys.extend_from_slice(&xs[..at])?;
    ys.extend_from_slice(&xs[at + 1..])?;
    Ok(())
}

// A leaf of the elements of a slice with one more at a place, or two where they are too many for one.
pub(crate) fn leaf_with_more<X: Copy + Drop>(
    alloc: Global,
    xs: &[X],
    at: usize,
    x: X,
) -> Result<Shared<X>, NoMemory>
    requires { at ≤ length xs.now }
    ensures { IfOk result (λ t. (arc_value t).0 ≡ insert xs.now at x) }
{
    if xs.len() < LEAF_MAX {
        return longer_leaf(alloc, xs, at, x);
    }
    // Elements that come in order leave full leaves behind.
    let half = if at == xs.len() { at } else { xs.len() / 2 };
    let (front, back) = xs.split_at(half);
    if at < half {
        longer_front(alloc, front, back, at, x)
    } else {
        longer_back(alloc, front, back, at - half, x)
    }
}

// Two leaves, with one more at a place of the first.
fn longer_front<X: Copy + Drop>(
    alloc: Global,
    front: &[X],
    back: &[X],
    at: usize,
    x: X,
) -> Result<Shared<X>, NoMemory>
    requires { at ≤ length front.now }
    ensures { IfOk result (λ t. (arc_value t).0 ≡ insert front.now at x ++ back.now) }
{
    let left = longer_leaf(alloc, front, at, x)?;
    let right = leaf_of(alloc, back)?;
    fork(alloc, left, right)
}

// Two leaves, with one more at a place of the second.
fn longer_back<X: Copy + Drop>(
    alloc: Global,
    front: &[X],
    back: &[X],
    at: usize,
    x: X,
) -> Result<Shared<X>, NoMemory>
    requires { at ≤ length back.now }
    ensures { IfOk result (λ t. (arc_value t).0 ≡ front.now ++ insert back.now at x) }
{
    let left = leaf_of(alloc, front)?;
    let right = longer_leaf(alloc, back, at, x)?;
    fork(alloc, left, right)
}

// A leaf of the elements of a slice.
fn leaf_of<X: Copy + Drop>(alloc: Global, xs: &[X]) -> Result<Shared<X>, NoMemory>
    ensures { IfOk result (λ t. (arc_value t).0 ≡ xs.now) }
{
    leaf(alloc, Vec::from_slice(alloc, xs)?)
}

// A leaf of the elements of a slice with one more at a place.
fn longer_leaf<X: Copy + Drop>(
    alloc: Global,
    xs: &[X],
    at: usize,
    x: X,
) -> Result<Shared<X>, NoMemory>
    requires { at ≤ length xs.now }
    ensures { IfOk result (λ t. (arc_value t).0 ≡ insert xs.now at x) }
{
    leaf(alloc, slice_with_more(alloc, xs, at, x)?)
}

// A leaf of the elements of a slice without the one at a place.
fn leaf_without<X: Copy + Drop>(alloc: Global, xs: &[X], at: usize) -> Result<Shared<X>, NoMemory>
    requires { at < length xs.now }
    ensures { IfOk result (λ t. (arc_value t).0 ≡ remove xs.now at) }
{
    leaf(alloc, slice_without(alloc, xs, at)?)
}

// A leaf of the elements of a slice, but for another one at a place.
fn leaf_with_other<X: Copy + Drop>(
    alloc: Global,
    xs: &[X],
    at: usize,
    x: X,
) -> Result<Shared<X>, NoMemory>
    requires { at < length xs.now }
    ensures { IfOk result (λ t. (arc_value t).0 ≡ slice_set xs.now at x) }
{
    let mut ys = Vec::from_slice(alloc, xs)?;
    ys[at] = x;
    leaf(alloc, ys)
}

// A leaf.
fn leaf<X>(alloc: Global, xs: Vec<X>) -> Result<Shared<X>, NoMemory>
where
    X: Drop,
    ensures { IfOk result (λ t. (arc_value t).0 ≡ xs.items) }
{
    Ok(Arc::new(
        alloc,
        Tree {
            node: Node::Leaf(xs),
        },
    )?)
}

// A node over two sides, which are not balanced.
fn fork<X>(alloc: Global, left: Shared<X>, right: Shared<X>) -> Result<Shared<X>, NoMemory>
where
    X: Drop,
    ensures { IfOk result (λ t. (arc_value t).0 ≡ (arc_value left).0 ++ (arc_value right).0) }
{
    let (height, count) = fork_size(&left, &right)?;
    Ok(Arc::new(
        alloc,
        Tree {
            node: Node::Fork {
                height,
                count,
                left,
                right,
            },
        },
    )?)
}

// How high a node over two sides is, and how many elements it has.
fn fork_size<X>(left: &Shared<X>, right: &Shared<X>) -> Result<(u8, usize), NoMemory>
where
    X: Drop,
    ensures height { IfOk result (λ size.
        (max (arc_value left.now).1 (arc_value right.now).1 + 1 ≤ size.0) × (size.0 ≤ 64)) }
    ensures count { IfOk result (λ size.
        size.1 ≡ length ((arc_value left.now).0 ++ (arc_value right.now).0)) }
{
    let height = left.height().max(right.height());
    let Some(count) = left.len().checked_add(right.len()) else {
        return Err(NoMemory);
    };
    if height < HEIGHT_MAX {
        Ok((height + 1, count))
    } else {
        Err(NoMemory)
    }
}

// One more owner of a tree.
fn shared<X: Drop>(tree: &Shared<X>) -> Result<Shared<X>, NoMemory>
    ensures { IfOk result (λ t. (arc_value t).0 ≡ (arc_value tree.now).0) }
{
    Ok(Arc::try_clone(tree)?)
}

// A node over two sides that stay with their owners too.
fn fork_over<X: Drop>(
    alloc: Global,
    left: &Shared<X>,
    right: &Shared<X>,
) -> Result<Shared<X>, NoMemory>
    ensures { IfOk result (λ t. (arc_value t).0
        ≡ (arc_value left.now).0 ++ (arc_value right.now).0) }
{
    fork_before(alloc, shared(left)?, right)
}

// A node over a side and another one that stays with its owner too.
fn fork_before<X: Drop>(
    alloc: Global,
    left: Shared<X>,
    right: &Shared<X>,
) -> Result<Shared<X>, NoMemory>
    ensures { IfOk result (λ t. (arc_value t).0 ≡ (arc_value left).0 ++ (arc_value right.now).0) }
{
    let right = shared(right)?;
    fork(alloc, left, right)
}

// A node over a side that stays with its owner too, and another one.
fn fork_behind<X: Drop>(
    alloc: Global,
    left: &Shared<X>,
    right: Shared<X>,
) -> Result<Shared<X>, NoMemory>
    ensures { IfOk result (λ t. (arc_value t).0 ≡ (arc_value left.now).0 ++ (arc_value right).0) }
{
    let left = shared(left)?;
    fork(alloc, left, right)
}

// Two sides as one tree, turned where one side is much higher.
fn join<X: Drop>(alloc: Global, left: &Shared<X>, right: &Shared<X>) -> Result<Shared<X>, NoMemory>
    ensures { IfOk result (λ t. (arc_value t).0
        ≡ (arc_value left.now).0 ++ (arc_value right.now).0) }
{
    if left.height() > right.height() + 1 {
        lean_left(alloc, left, right)
    } else if right.height() > left.height() + 1 {
        lean_right(alloc, left, right)
    } else {
        fork_over(alloc, left, right)
    }
}

// Two sides of which the left one is too high.
fn lean_left<X: Drop>(
    alloc: Global,
    left: &Shared<X>,
    right: &Shared<X>,
) -> Result<Shared<X>, NoMemory>
    ensures { IfOk result (λ t. (arc_value t).0
        ≡ (arc_value left.now).0 ++ (arc_value right.now).0) }
{
    let Node::Fork {
        left: outer,
        right: inner,
        ..
    } = &left.node
    else {
        return fork_over(alloc, left, right);
    };
    if outer.height() < inner.height() {
        return fork_parted(alloc, outer, inner, right);
    }
    fork_behind(alloc, outer, fork_over(alloc, inner, right)?)
}

// Two sides of which the right one is too high.
fn lean_right<X: Drop>(
    alloc: Global,
    left: &Shared<X>,
    right: &Shared<X>,
) -> Result<Shared<X>, NoMemory>
    ensures { IfOk result (λ t. (arc_value t).0
        ≡ (arc_value left.now).0 ++ (arc_value right.now).0) }
{
    let Node::Fork {
        left: inner,
        right: outer,
        ..
    } = &right.node
    else {
        return fork_over(alloc, left, right);
    };
    if outer.height() < inner.height() {
        return fork_parted(alloc, left, inner, outer);
    }
    fork_before(alloc, fork_over(alloc, left, inner)?, outer)
}

// A node over three, of which the middle one is parted between the other two.
fn fork_parted<X: Drop>(
    alloc: Global,
    first: &Shared<X>,
    middle: &Shared<X>,
    last: &Shared<X>,
) -> Result<Shared<X>, NoMemory>
    ensures { IfOk result (λ t. (arc_value t).0
        ≡ (arc_value first.now).0 ++ ((arc_value middle.now).0 ++ (arc_value last.now).0)) }
{
    let Node::Fork {
        left: front,
        right: back,
        ..
    } = &middle.node
    else {
        return fork_behind(alloc, first, fork_over(alloc, middle, last)?);
    };
    let left = fork_over(alloc, first, front)?;
    let right = fork_over(alloc, back, last)?;
    fork(alloc, left, right)
}
