//! What workers do at the desks of a book, and what stands in the book at the end.
use super::acts::{Act, Answer};
use super::crossing::Step;
use super::example::{Example, two_lines_example};
use super::same_answers::over_own_book;
use super::seats::over_one_seat;
use super::two_workers::over_two_seats;
use crate::tests::entries::Told;
use crate::tests::keepers::{blind, in_memory};
use crate::tests::made;
use book::Book;
use row_keeper::Keeper;
use std::alloc::Global;
use std::process::Abort;
use std::sync::Wait;

// What a worker is asked, one after another, and what it answers.
pub(crate) type Table<'a> = &'a [(Act, Answer)];

// What is done in three parts.
#[derive(Clone, Copy)]
pub(crate) struct Acts<'a> {
    pub(crate) before: Table<'a>,
    pub(crate) between: Table<'a>,
    pub(crate) after: Table<'a>,
}

// What two workers do over the desks of two seats.
#[derive(Clone, Copy)]
pub(crate) enum Two<'a> {
    // Worker 0 acts before and while and after the other seat has the turn.
    Busy(Acts<'a>),
    // Worker 0 acts, and then worker 1, and then worker 0 again.
    Overtaking(Acts<'a>),
    // They take in each other's messages.
    Crossing(&'a [(Step, Answer)]),
    // Each claims its interval, and does three turns of work.
    Turns,
}

// What is done.
#[derive(Clone, Copy)]
pub(crate) enum Play<'a> {
    // A worker acts over the desk of a book of its own.
    Own(Table<'a>),
    // A worker acts over the desk of the one seat.
    One(Table<'a>),
    // Workers act over the desks of two seats.
    Two(Two<'a>),
}

// Which keeper a book has.
#[derive(Clone, Copy)]
pub(crate) enum Kept<'a> {
    // One in memory, whose calls of these numbers fail.
    InMemory(&'a [u64]),
    // One that tells no row and shows none of a part that is there.
    Blind,
}

// What is done over a new book, and what stands in it at the end.
#[derive(Clone, Copy)]
pub(crate) struct Row<'a> {
    pub(crate) kept: Kept<'a>,
    // How many entries the book has room for.
    pub(crate) limit: u32,
    pub(crate) play: Play<'a>,
    // What was appended.
    pub(crate) entries: &'a [Told],
    // The marks of the injector's interval and of the count's.
    pub(crate) marks: [u64; 2],
}

// A row is played over a new book with this keeper.
fn begin<R: Wait + Abort, K: Keeper>(
    rt: &R,
    alloc: Global,
    given: &Example,
    keeper: K,
    row: &Row<'_>,
) {
    let limit = u64::from(row.limit);
    let book = made(rt, Book::start(alloc, &given.case, keeper, limit));
    match row.play {
        Play::Own(table) => over_own_book(rt, alloc, given, book, row, table),
        Play::One(table) => over_one_seat(rt, alloc, given, book, row, table),
        Play::Two(two) => over_two_seats(rt, alloc, given, book, row, two),
    }
}

// Each row is played over a new book of its own.
fn play_each<R: Wait + Abort>(rt: &R, alloc: Global, given: &Example, rows: &[Row<'_>]) {
    for row in rows {
        match row.kept {
            Kept::InMemory(calls) => begin(rt, alloc, given, in_memory(rt, alloc, calls), row),
            Kept::Blind => begin(rt, alloc, given, blind(rt, alloc, 7, &[]), row),
        }
    }
}

// The same of the example of two lines.
pub(crate) fn play_all<R: Wait + Abort>(rt: &R, alloc: Global, rows: &[Row<'_>]) {
    let given = two_lines_example(rt, alloc);
    play_each(rt, alloc, &given, rows);
    drop(given);
}
