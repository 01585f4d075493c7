//! Which interval has a row, of parts with and without cuts, before and after a split and a merge.
ghost use Rattle.std.specs.Prelude.{◌≡◌, ◌∷◌, ◌≤◌, ◌<◌, [], All, codes, length, IfOk};
ghost use Rattle.mw_types.specs.declared.key.PartCuts.{PartCuts};
ghost use Rattle.key_intervals.specs.Intervals.{AreNumbered};

use super::{Holds, all_hold, key_of, made, must, name_of};
use key_intervals::{Bounds, INTERVALS_MAX, Intervals, MergeRefusal, SplitRefusal};
use mw_types::{Key, KeyList, NoMemory, PartCuts, PartCutsList, RowName};
use std::alloc::Global;
use std::process::Abort;

// A part without cuts.
fn whole(alloc: Global, part: u32) -> PartCuts
    ensures { result ≡ record { part = part; cuts = [] } }
{
    PartCuts {
        part,
        cuts: KeyList::new(alloc),
    }
}

// Three parts, of which the second is cut at h and at q.
fn three_parts(rt: &impl Abort, alloc: Global) -> PartCutsList
    ensures { result ≡ record { part = 0; cuts = [] }
        ∷ record { part = 1; cuts = codes "h" ∷ codes "q" ∷ [] } ∷ record { part = 2; cuts = [] } ∷ [] }
{
    let mut cuts = KeyList::new(alloc);
    made(rt, cuts.push(made(rt, Key::of(alloc, "h"))));
    made(rt, cuts.push(made(rt, Key::of(alloc, "q"))));
    let mut parts = PartCutsList::new(alloc);
    made(rt, parts.push(whole(alloc, 0)));
    made(rt, parts.push(PartCuts { part: 1, cuts }));
    made(rt, parts.push(whole(alloc, 2)));
    parts
}

// Their intervals, where the first part is an injector.
fn three_intervals(rt: &impl Abort, alloc: Global) -> Intervals
    ensures parts { result.parts ≡ 3 }
    ensures count { length result.given ≡ 5 }
{
    let parts = three_parts(rt, alloc);
    let intervals = made(rt, Intervals::of(alloc, parts.as_slice(), 1));
    drop(parts);
    intervals
}

// Whether the row of a key, of a part that is there, is in this interval.
fn finds(intervals: &Intervals, part: u32, key: Key, number: u32) -> bool
    requires { part < intervals.now.parts }
{
    let row = RowName { part, key };
    let found = intervals.find(&row);
    drop(row);
    found == number
}

// Keys of the part that is cut, and the interval of each.
type Found = (&'static str, u32);

static CUT: [Found; 7] = [
    ("a", 1),
    ("gz", 1),
    ("h", 2),
    ("h0", 2),
    ("p", 2),
    ("q", 3),
    ("z", 3),
];

impl Holds for Found {
    // A row of the part that is cut is in this interval.
    fn holds<R: Abort>(&self, rt: &R, alloc: Global) -> bool {
        let (text, number) = self;
        let intervals = three_intervals(rt, alloc);
        let finds = finds(&intervals, 1, key_of(rt, alloc, text), *number);
        drop(intervals);
        finds
    }
}

// Whether there are five, of which the first and the last are of the parts beside.
fn are_five(rt: &impl Abort, alloc: Global) -> bool {
    let intervals = three_intervals(rt, alloc);
    let is_last = finds(&intervals, 2, key_of(rt, alloc, "h"), 4);
    let is_first = injector_interval(alloc, &intervals) == 0;
    let are_five = intervals.count() == 5 && is_first && is_last;
    drop(intervals);
    are_five
}

// The interval of the row of the injector.
fn injector_interval(alloc: Global, intervals: &Intervals) -> u32
    requires { 0 < intervals.now.parts }
{
    let row = RowName {
        part: 0,
        key: Key::none(alloc),
    };
    let found = intervals.find(&row);
    drop(row);
    found
}

// Whether the bounds of the interval in the middle go from h to q in part 1, and have no row of another part.
fn has_middle(rt: &impl Abort, alloc: Global) -> bool {
    let middle = Bounds {
        part: 1,
        from: key_of(rt, alloc, "h"),
        to: Some(key_of(rt, alloc, "q")),
    };
    let other = name_of(rt, alloc, 2, "h");
    let intervals = three_intervals(rt, alloc);
    let bounds = intervals.bounds(2);
    let is_middle = !bounds.covers(&other) && *bounds == middle;
    drop(intervals);
    drop(other);
    drop(middle);
    is_middle
}

// So many parts without cuts.
fn whole_parts(alloc: Global, count: u32) -> Result<PartCutsList, NoMemory>
    ensures count { IfOk result (λ parts. length parts ≡ count) }
    ensures numbered { IfOk result (λ parts. AreNumbered 0 parts) }
    ensures whole { IfOk result (λ parts. All (λ (p : PartCuts). p.cuts ≡ []) parts) }
{
    let mut parts = PartCutsList::new(alloc);
    for part in 0..count {
        parts.push(whole(alloc, part))?;
    }
    Ok(parts)
}

// The intervals of so many parts without cuts.
fn whole_intervals(alloc: Global, count: u32) -> Result<Intervals, NoMemory>
    requires { count ≤ INTERVALS_MAX }
    ensures parts { IfOk result (λ all. all.parts ≡ count) }
    ensures count { IfOk result (λ all. length all.given ≡ count) }
{
    let parts = whole_parts(alloc, count)?;
    let intervals = Intervals::of(alloc, parts.as_slice(), 0)?;
    Ok(intervals)
}

// Whether 61 parts have as many intervals, and the last its own, without an upper end.
fn last_is_whole(rt: &impl Abort, alloc: Global) -> bool {
    let intervals = made(rt, whole_intervals(alloc, 61));
    let last = RowName {
        part: 60,
        key: Key::none(alloc),
    };
    let bounds = intervals.bounds(60);
    let is_whole = bounds.part == 60 && bounds.to.is_none();
    let is_found = intervals.find(&last) == 60 && intervals.count() == 61;
    drop(last);
    drop(intervals);
    is_whole && is_found
}

// The three parts' intervals, of which that with the number 1 is split at d.
fn split_at_d(rt: &impl Abort, alloc: Global) -> Intervals
    ensures { result.parts ≡ 3 }
{
    let mut intervals = three_intervals(rt, alloc);
    let cut = key_of(rt, alloc, "d");
    let first = made(rt, intervals.split(alloc, 1, &cut));
    drop(cut);
    must(
        rt,
        first == 5 && intervals.count() == 7,
        "the numbers of a split",
    );
    intervals
}

// The same once both halves are one again.
fn merged_again(rt: &impl Abort, alloc: Global) -> Intervals
    ensures { result.parts ≡ 3 }
{
    let mut intervals = split_at_d(rt, alloc);
    let first = made(rt, intervals.merge(alloc, 5, 6));
    must(
        rt,
        first == 7 && intervals.count() == 8,
        "the number of a merge",
    );
    intervals
}

// A key of the part that is cut, and the interval of its row after the split, and after the merge.
type Divided = (&'static str, u32, u32);

static DIVIDED: [Divided; 6] = [
    ("a", 5, 7),
    ("cz", 5, 7),
    ("d", 6, 7),
    ("gz", 6, 7),
    ("h", 2, 2),
    ("z", 3, 3),
];

impl Holds for Divided {
    // The row of the key is in these intervals.
    fn holds<R: Abort>(&self, rt: &R, alloc: Global) -> bool {
        let (text, number, again) = self;
        let split = split_at_d(rt, alloc);
        let in_half = finds(&split, 1, key_of(rt, alloc, text), *number);
        drop(split);
        let merged = merged_again(rt, alloc);
        let in_whole = finds(&merged, 1, key_of(rt, alloc, text), *again);
        drop(merged);
        in_half && in_whole
    }
}

// A number and a cut, and why there is no split of that number at that cut once number 1 was split at d.
type Uncut = (u32, &'static str, SplitRefusal);

static UNCUT: [Uncut; 6] = [
    (0, "d", SplitRefusal::BadCut),
    (1, "b", SplitRefusal::NoInterval),
    (2, "h", SplitRefusal::BadCut),
    (2, "q", SplitRefusal::BadCut),
    (5, "d", SplitRefusal::BadCut),
    (7, "b", SplitRefusal::NoInterval),
];

impl Holds for Uncut {
    // The split is refused so, and nothing changed.
    fn holds<R: Abort>(&self, rt: &R, alloc: Global) -> bool {
        let (number, text, why) = self;
        let mut intervals = split_at_d(rt, alloc);
        let cut = key_of(rt, alloc, text);
        let refused = intervals.split(alloc, *number, &cut) == Err(*why);
        drop(cut);
        let is_same = intervals.count() == 7;
        drop(intervals);
        refused && is_same
    }
}

// Two numbers, and why there is no merge of them once number 1 was split at d.
type Unmerged = (u32, u32, MergeRefusal);

static UNMERGED: [Unmerged; 6] = [
    (1, 2, MergeRefusal::NoInterval),
    (6, 7, MergeRefusal::NoInterval),
    (6, 5, MergeRefusal::NotNeighbours),
    (5, 5, MergeRefusal::NotNeighbours),
    (3, 4, MergeRefusal::NotNeighbours),
    (5, 2, MergeRefusal::NotNeighbours),
];

impl Holds for Unmerged {
    // The merge is refused so, and nothing changed.
    fn holds<R: Abort>(&self, rt: &R, alloc: Global) -> bool {
        let (low, high, why) = self;
        let mut intervals = split_at_d(rt, alloc);
        let refused = intervals.merge(alloc, *low, *high) == Err(*why);
        let is_same = intervals.count() == 7 && !intervals.live(1) && intervals.live(6);
        drop(intervals);
        refused && is_same
    }
}

// Whether one of 59 whole parts can be split, which gives the last two numbers, and nothing after that.
fn gives_last_numbers(rt: &impl Abort, alloc: Global) -> bool {
    let mut intervals = made(rt, whole_intervals(alloc, 59));
    let cut = key_of(rt, alloc, "d");
    let first = made(rt, intervals.split(alloc, 58, &cut));
    let is_unsplit = intervals.split(alloc, 0, &cut) == Err(SplitRefusal::NumbersFull);
    let is_unmerged = intervals.merge(alloc, 59, 60) == Err(MergeRefusal::NumbersFull);
    drop(cut);
    drop(intervals);
    first == 59 && is_unsplit && is_unmerged
}

#[test]
fn a_split_and_a_merge_give_numbers(rt: HostRuntime) {
    let alloc = rt.alloc();
    all_hold(&rt, alloc, &DIVIDED);
    all_hold(&rt, alloc, &UNCUT);
    all_hold(&rt, alloc, &UNMERGED);
    must(&rt, gives_last_numbers(&rt, alloc), "61 numbers");
}

#[test]
fn a_cut_begins_an_interval(rt: HostRuntime) {
    let alloc = rt.alloc();
    all_hold(&rt, alloc, &CUT);
    let are_five = are_five(&rt, alloc) && has_middle(&rt, alloc);
    let of_one = made(&rt, whole_intervals(alloc, 1));
    let count = of_one.count();
    drop(of_one);
    let are_whole = count == 1 && last_is_whole(&rt, alloc);
    must(
        &rt,
        are_five && are_whole,
        "the middle, and parts without cuts",
    );
}
