//! Whose intervals feed an interval, and the least mark of a part.
ghost use Rattle.std.specs.Prelude.{◌≡◌, ◌<◌, ◌≤◌, ◌==◌, length, map, slice_get, IfOk, Some};
ghost use Rattle.std.specs.List.{list_any};
ghost use Rattle.topology.specs.Shapes.{parts_of};
ghost use Rattle.run_history.specs.Cases.{intervals_of};
ghost use Rattle.run_history.specs.Watermarks.{least};
ghost use Rattle.watermark.specs.Marks.{feeding_marks, feeding_of, mark_of, numbers_in, marks_in, marks_of};

use mw_types::{END, NoMemory, NumberList};
use run_history::Case;
use std::alloc::Global;

/// The intervals of the parts that feed an interval's part, ascending by number. A worker that wants
/// the low watermark of the interval looks at the marks of these.
pub fn feeding(alloc: Global, case: &Case, interval: u32) -> Result<NumberList, NoMemory>
    requires exists { interval < length (intervals_of case.now.topology) }
    ensures feeding { IfOk result (λ numbers. numbers ≡ feeding_of case.now.topology interval) }
{
    let part = case.bounds(interval).part;
    let feeds = case.topology.feeds(part);
    let numbers = numbers_in(alloc, case, feeds)?;
    Ok(numbers)
}

/// The least mark of a part's intervals, of a mark for each interval.
pub fn low(case: &Case, part: u32, marks: &[u64]) -> u64
    requires part { part < parts_of case.now.topology }
    requires marks { length marks.now ≡ length (intervals_of case.now.topology) }
    ensures least { result ≡ least (marks_of case.now.topology part marks.now) }
    ensures some { 1 ≤ length (marks_of case.now.topology part marks.now) }
{
    low_in(case, part, marks)
}

/// The least mark of the intervals that feed an interval, of a mark for each interval; the end where
/// none feeds it. The mark of the interval may not pass it.
pub fn inputs(case: &Case, interval: u32, marks: &[u64]) -> u64
    requires exists { interval < length (intervals_of case.now.topology) }
    requires marks { length marks.now ≡ length (intervals_of case.now.topology) }
    ensures least { result ≡ least (feeding_marks case.now.topology interval marks.now) }
{
    let feeds = case.topology.feeds(case.bounds(interval).part);
    least_among(case, feeds, marks)
}

// The least mark of the intervals of some parts.
fn least_among(case: &Case, parts: &[u32], marks: &[u64]) -> u64
    requires { length marks.now ≡ length (intervals_of case.now.topology) }
    ensures { let all = intervals_of case.now.topology in
        result ≡ least (map (mark_of marks.now) (numbers_in parts.now 0 all)) }
{
    let mut least = END;
    for interval in 0..case.interval_count() {
        let mark = mark_at(marks, interval);
        if is_among(parts, case.bounds(interval).part) {
            least = least.min(mark);
        }
    }
    least
}

// The numbers of the intervals of some parts.
fn numbers_in(alloc: Global, case: &Case, parts: &[u32]) -> Result<NumberList, NoMemory>
    ensures { let all = intervals_of case.now.topology in
        IfOk result (λ numbers. numbers ≡ numbers_in parts.now 0 all) }
{
    let mut numbers = NumberList::new(alloc);
    for interval in 0..case.interval_count() {
        if is_among(parts, case.bounds(interval).part) {
            numbers.push(interval)?;
        }
    }
    Ok(numbers)
}

// Whether a part is one of these.
fn is_among(parts: &[u32], part: u32) -> bool
    ensures { result ≡ list_any (λ p. p == part) parts.now }
{
    parts.iter().any(|p| *p == part)
}

// The least mark of the intervals of a part.
fn low_in(case: &Case, part: u32, marks: &[u64]) -> u64
    requires { length marks.now ≡ length (intervals_of case.now.topology) }
    ensures { let all = intervals_of case.now.topology in
        result ≡ least (marks_in all part marks.now) }
{
    let mut low = END;
    for interval in 0..case.interval_count() {
        let mark = mark_at(marks, interval);
        if case.bounds(interval).part == part {
            low = low.min(mark);
        }
    }
    low
}

// The mark of an interval.
fn mark_at(marks: &[u64], interval: u32) -> u64
    requires { interval < length marks.now }
    ensures { slice_get marks.now interval ≡ Some result }
{
    marks[interval as usize]
}
