//! Rounds of two workers over a keeper whose call of each number fails, and the rows that it holds then.
use crate::tests::looks::Look;
use crate::tests::must_hold;
use crate::tests::threads::seen;
use crate::tests::topologies::CUTS;

// The count in three intervals, no plan, and the fifty lines of the seed 7.
const FILES: (&str, &[u8], u32) = (CUTS, b"", 50);

// The first call is that of the book's start; then there are four claims, and each other entry puts a row.
#[test]
fn rounds_whose_keeper_fails_leave_the_rows_of_their_history(rt: HostRuntime) {
    let line = "run --workers 2 --rounds 4 t.json e";
    for number in 0..20 {
        let look = Look::FailsWithItsRows;
        let is_so = seen(&rt, rt.alloc(), line, FILES, &[number], look);
        must_hold(&rt, is_so, number);
    }
}

// Runs at their greatest numbers.
static RUNS: [&str; 3] = [
    "run --workers 1 --rounds 1000 t.json e",
    "run --workers 16 --rounds 0 t.json e",
    "run --workers 16 --rounds 4 t.json e",
];

#[test]
fn runs_have_up_to_sixteen_workers_and_a_thousand_rounds(rt: HostRuntime) {
    for line in &RUNS {
        let is_so = seen(&rt, rt.alloc(), line, FILES, &[], Look::Ends);
        must_hold(&rt, is_so, *line);
    }
}
