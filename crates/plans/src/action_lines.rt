//! The action that a line of a plan of threads names.
ghost use Rattle.std.specs.Prelude.{◌≡◌, ◌<◌, IfSome};
ghost use Rattle.topology.specs.Shapes.{Shape};
ghost use Rattle.text_lines.specs.Words.{word_of};
ghost use Rattle.plans.specs.Named.{interval_in};
ghost use Rattle.plans.specs.Plans.{IsAction, IsWhat, action_of, happens_in, happens_to, moved_to, round_in, timed, what_of, worker_in};

use crate::action::{Action, What};
use crate::named::{interval_in, is_word};
use run_history::Case;
use text_lines::{LineReader, below, first_word};

// Reads the lines of a plan for so many workers and rounds over a case.
#[derive(Drop)]
pub(crate) struct ActionReader<'a> {
    pub(crate) case: &'a Case,
    pub(crate) workers: u32,
    pub(crate) rounds: u32,
}

impl<'a> LineReader for ActionReader<'a> {
    type Said = Action;

    ghost reading = { λ reader.
        action_of reader.case.now.topology reader.workers reader.rounds };

    ghost lawful = { λ reader.
        IsAction reader.case.now.topology reader.workers reader.rounds };

    fn read(&self, line: &[u8]) -> Option<Action> {
        action_in(self.case, self.workers, self.rounds, line)
    }
}

// The worker that a word names, of so many.
fn worker_in(workers: u32, word: &[u8]) -> Option<u32>
    ensures number { result ≡ worker_in workers word.now }
    ensures range { IfSome result (λ n. n < workers) }
{
    below(u64::from(workers), word)
}

// The round that a word names, of so many.
fn round_in(rounds: u32, word: &[u8]) -> Option<u32>
    ensures number { result ≡ round_in rounds word.now }
    ensures range { IfSome result (λ n. n < rounds) }
{
    below(u64::from(rounds), word)
}

// What happens to a worker alone.
fn happens_to(workers: u32, verb: &[u8], word: &[u8]) -> Option<What>
    ensures what { result ≡ happens_to workers verb.now word.now }
    ensures there { (shape : Shape) → IfSome result (IsWhat shape workers) }
{
    if is_word(verb, "crash") {
        worker_in(workers, word).map(|worker| What::Crash { worker })
    } else if is_word(verb, "stall") {
        worker_in(workers, word).map(|worker| What::Stall { worker })
    } else if is_word(verb, "repeat") {
        worker_in(workers, word).map(|worker| What::Repeat { worker })
    } else if is_word(verb, "lose") {
        worker_in(workers, word).map(|worker| What::Lose { worker })
    } else if is_word(verb, "hold") {
        worker_in(workers, word).map(|worker| What::Hold { worker })
    } else {
        None
    }
}

// The move of an interval to a worker.
fn moved_to(case: &Case, workers: u32, verb: &[u8], a: &[u8], b: &[u8]) -> Option<What>
    ensures what { result ≡ moved_to case.now.topology workers verb.now a.now b.now }
    ensures there { IfSome result (IsWhat case.now.topology workers) }
{
    if is_word(verb, "move") {
        let interval = interval_in(case, a)?;
        let worker = worker_in(workers, b)?;
        Some(What::Move { interval, worker })
    } else {
        None
    }
}

// What a verb and what follows it say.
fn happens_in(case: &Case, workers: u32, verb: &[u8], numbers: &[u8]) -> Option<What>
    ensures what { result ≡
        happens_in case.now.topology workers verb.now numbers.now (word_of numbers.now) }
    ensures there { IfSome result (IsWhat case.now.topology workers) }
{
    match first_word(numbers) {
        Some((a, b)) => moved_to(case, workers, verb, a, b),
        None => happens_to(workers, verb, numbers),
    }
}

// What a text of a verb and its numbers says.
fn what_in(case: &Case, workers: u32, text: &[u8]) -> Option<What>
    ensures what { result ≡ what_of case.now.topology workers text.now }
    ensures there { IfSome result (IsWhat case.now.topology workers) }
{
    let (verb, numbers) = first_word(text)?;
    happens_in(case, workers, verb, numbers)
}

// The action in a round.
fn timed(case: &Case, workers: u32, rounds: u32, text: &[u8]) -> Option<Action>
    ensures action { result ≡ timed case.now.topology workers rounds text.now }
    ensures there { IfSome result (IsAction case.now.topology workers rounds) }
{
    let (word, text) = first_word(text)?;
    let round = round_in(rounds, word)?;
    let what = what_in(case, workers, text)?;
    Some(Action { round, what })
}

// The action that a line names.
fn action_in(case: &Case, workers: u32, rounds: u32, line: &[u8]) -> Option<Action>
    ensures action { result ≡ action_of case.now.topology workers rounds line.now }
    ensures there { IfSome result (IsAction case.now.topology workers rounds) }
{
    let (first, text) = first_word(line)?;
    if first == b"at".as_slice() {
        timed(case, workers, rounds, text)
    } else {
        None
    }
}
