//! What a history of claims has to be: of each worker the claims that it made, in its order.
use super::threads::Shares;
use crate::tests::must;
use mw_types::Entry;
use std::process::Abort;

// Whether the claims of a worker in a history have the numbers that it was answered, and are of the intervals in its
// order.
fn are_own(entries: &[Entry], of: u32, answered: &[u64]) -> bool {
    let mut are = true;
    let mut next = 0usize;
    let mut turn = of % 2;
    for (number, entry) in entries.iter().enumerate() {
        if let Entry::Claim { worker, interval } = entry {
            if *worker == of {
                let is_answered = answered.get(next) == Some(&(number as u64));
                are = are && is_answered && *interval == turn;
                next = next.saturating_add(1);
                turn = if turn == 0 { 1 } else { 0 };
            }
        }
    }
    are && next == answered.len()
}

// The history has 10,000 entries, and of each worker its claims, as many as its share. So each entry is a claim of a
// worker below 4 and of one of the two intervals; such a claim may follow any history, and is under no lease, so the
// history is lawful.
pub(crate) fn expect_shares(
    rt: &impl Abort,
    entries: &[Entry],
    answered: &[Vec<u64>],
    shares: &Shares,
) {
    must(rt, entries.len() == 10_000, "how many entries");
    for worker in 0..4u32 {
        let at = worker as usize;
        let share = shares[at];
        let has = match answered.get(at) {
            Some(numbers) => {
                numbers.len() == share as usize && are_own(entries, worker, numbers.as_slice())
            }
            None => share == 0,
        };
        must(rt, has, worker);
    }
}
