//! Lists that share memory, beside vectors that do not.
use super::{made, must};
use mw_types::{Duplicate, SharedList};
use std::alloc::Global;
use std::process::Abort;

// A value that threads may hand to one another.
fn crosses_threads<T: Send + Sync>() -> bool {
    true
}

// Whether a list has the elements of a slice.
fn are_alike(list: &SharedList<u64>, xs: &[u64]) -> bool {
    for at in 0..xs.len() {
        if list.get(at) != xs.get(at) {
            return false;
        }
    }
    list.len() == xs.len()
}

// What is done at a place.
enum Edit {
    // The number of those that are there is put there.
    Insert,
    // It is put in the place of another.
    Set(u64),
    // The number there is taken out.
    Remove,
}

// What is done at a place in the first 300 steps, and in those behind them.
const PUT: &[Edit] = &[Edit::Insert];

const TAKE: &[Edit] = &[Edit::Set(999), Edit::Remove];

// Does these to a list and to a vector of one length, and tells whether both have the same after each. What is changed
// or taken out has to be there.
fn are_edited(
    rt: &impl Abort,
    list: &mut SharedList<u64>,
    xs: &mut Vec<u64>,
    at: usize,
    edits: &[Edit],
) -> bool {
    let mut are = true;
    for edit in edits {
        assert!(rt; list.len() == xs.len() && at <= xs.len());
        match edit {
            Edit::Insert => {
                let number = xs.len() as u64;
                made(rt, list.insert(at, number));
                made(rt, xs.insert(at, number));
            }
            Edit::Set(x) => {
                if at < xs.len() {
                    made(rt, list.set(at, *x));
                    xs[at] = *x;
                }
            }
            Edit::Remove => {
                if at < xs.len() {
                    made(rt, list.remove(at));
                    xs.remove(at);
                }
            }
        }
        are = are && are_alike(list, xs);
    }
    are
}

// Whether both have the same after each edit at a place, an older copy has what it had, and the list is equal to one
// that is made of the vector at once, and flat that vector.
fn is_kept(
    rt: &impl Abort,
    alloc: Global,
    list: &mut SharedList<u64>,
    xs: &mut Vec<u64>,
    at: usize,
    edits: &[Edit],
) -> bool {
    let before = made(rt, list.copy(alloc));
    let old = made(rt, Vec::from_slice(alloc, xs));
    let are_edited = are_edited(rt, list, xs, at, edits);
    let is_kept = are_alike(&before, &old) && *list != before;
    drop(old);
    drop(before);
    let other = SharedList::of(alloc, made(rt, Vec::from_slice(alloc, xs)));
    let other = made(rt, other);
    let is_equal = *list == other;
    drop(other);
    let flat = made(rt, list.flat(alloc));
    let is_flat = flat.as_slice() == xs.as_slice();
    drop(flat);
    are_edited && is_kept && is_equal && is_flat
}

// Puts a hundred numbers into a list, and notes what a walk by pieces meets.
fn walk(rt: &impl Abort, list: &mut SharedList<u64>, met: &mut Vec<u64>) {
    for x in 0..100u64 {
        made(rt, list.push(x));
    }
    for _ in 0..100 {
        if met.len() < list.len() {
            made(rt, met.extend_from_slice(list.run_at(met.len())));
        }
    }
}

// Puts 300 numbers in, each at a place as if by chance, as into a vector, and takes all out again, each from
// such a place and changed before.
fn edit_at_every_place(
    rt: &impl Abort,
    alloc: Global,
    list: &mut SharedList<u64>,
    xs: &mut Vec<u64>,
) {
    for step in 0..600u64 {
        let (edits, places) = if step < 300 { (PUT, 1) } else { (TAKE, 0) };
        let mixed = ((step % 300).wrapping_mul(6364136223846793005) >> 33) as usize;
        let length = xs.len().saturating_add(places);
        let at = if length == 0 { 0 } else { mixed % length };
        must(rt, is_kept(rt, alloc, list, xs, at, edits), step);
    }
    must(rt, list.is_empty(), "all are out");
}

// A list is edited beside a vector, which is empty again then, and walked over once it has a hundred numbers. The walk
// meets each.
#[test]
fn shared_lists_are_as_vectors(rt: HostRuntime) {
    let alloc = rt.alloc();
    let do_cross = crosses_threads::<SharedList<u64>>();
    must(&rt, do_cross, "lists cross threads");
    let mut list = SharedList::new(alloc);
    let mut xs = Vec::new(alloc);
    edit_at_every_place(&rt, alloc, &mut list, &mut xs);
    walk(&rt, &mut list, &mut xs);
    let meets = are_alike(&list, &xs);
    drop(xs);
    drop(list);
    must(&rt, meets, "a walk by pieces meets each");
}
