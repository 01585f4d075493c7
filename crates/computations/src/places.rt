//! Lists that ascend by a number, which each element has.
ghost use Rattle.std.specs.Prelude.{◌≡◌, ◌==◌, ◌<◌, ◌^◌, not, map, filter, length, slice_get, Some, IfOk, IfErr, OnOk};
ghost use Rattle.std.specs.List.Sorted.{IsStrictlySortedBy};
ghost use Rattle.std.specs.Ordering.{nat_cmp};
ghost use Rattle.computations.specs.Handlers.{entered};
ghost use Rattle.computations.specs.Places.{IsPlace, IsGap, IsBetween};

use mw_types::{NoMemory, SharedList};

// How many elements a list may have.
const LENGTH_MAX: usize = (1 << 32) - 1;

/// An element of a list that ascends by its number.
pub(crate) trait Numbered: Copy + Drop {
    ghost use Rattle.std.specs.Prelude.{ℕ};

    /// The number of an element.
    ghost number: { Self → ℕ };

    /// What an element becomes where another one with its number is entered.
    ghost joined: { Self → Self → Self };

    /// The number by which a list ascends.
    fn number(&self) -> u64
        ensures { result ≡ number self.now };

    /// This element, where another one with its number is entered.
    fn joined(self, new: Self) -> Self
        ensures { result ≡ joined self new };
}

// The place of the element with this number, or else the place where it belongs.
pub(crate) fn place_of<X: Numbered>(xs: &SharedList<X>, n: u64) -> Result<usize, usize>
    requires { IsStrictlySortedBy nat_cmp (map X.number xs.now) }
    ensures found { IfOk result (IsPlace X.number xs.now n) }
    ensures absent { IfErr result (IsGap X.number xs.now n) }
{
    place_between(xs, n, 0, xs.len())
}

// The same, where the place is between two.
fn place_between<X: Numbered>(
    xs: &SharedList<X>,
    n: u64,
    low: usize,
    high: usize,
) -> Result<usize, usize>
    requires ascending { IsStrictlySortedBy nat_cmp (map X.number xs.now) }
    requires between { IsBetween X.number xs.now n low high }
    ensures found { IfOk result (IsPlace X.number xs.now n) }
    ensures absent { IfErr result (IsGap X.number xs.now n) }
{
    if low >= high {
        return Err(low);
    }
    let middle = low + (high - low) / 2;
    let number = element_at(xs, middle).number();
    if number < n {
        place_between(xs, n, middle + 1, high)
    } else if n < number {
        place_between(xs, n, low, middle)
    } else {
        Ok(middle)
    }
}

// Enters an element where its number belongs; one that is there with this number takes it in.
pub(crate) fn enter<X: Numbered>(xs: &mut SharedList<X>, new: X) -> Result<(), NoMemory>
    requires ascending { IsStrictlySortedBy nat_cmp (map X.number xs.old) }
    requires few { length xs.old < 2 ^ 32 }
    ensures entered { OnOk result
        (xs.new ≡ entered X.number new (λ x. X.joined x new) xs.old) }
    ensures few { OnOk result (length xs.new < 2 ^ 32) }
{
    match place_of(xs, new.number()) {
        Ok(at) => {
            let there = element_at(xs, at);
            xs.set(at, there.joined(new))?;
            Ok(())
        }
        Err(at) => {
            if xs.len() >= LENGTH_MAX {
                return Err(NoMemory);
            }
            xs.insert(at, new)?;
            Ok(())
        }
    }
}

// Takes the element at a place away.
pub(crate) fn take<X: Numbered>(xs: &mut SharedList<X>, at: usize) -> Result<X, NoMemory>
    requires ascending { IsStrictlySortedBy nat_cmp (map X.number xs.old) }
    requires place { at < length xs.old }
    ensures element { IfOk result (λ x. slice_get xs.old at ≡ Some x) }
    ensures gone { IfOk result (λ x.
        xs.new ≡ filter (λ y. not (X.number y == X.number x)) xs.old) }
{
    let element = element_at(xs, at);
    xs.remove(at)?;
    Ok(element)
}

// The element at a place.
fn element_at<X: Numbered>(xs: &SharedList<X>, at: usize) -> X
    requires { at < length xs.now }
    ensures { slice_get xs.now at ≡ Some result }
{
    match xs.get(at) {
        Some(x) => *x,
        None => unreachable!(),
    }
}
