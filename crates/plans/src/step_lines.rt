//! Which step a line of a schedule says.
ghost use Rattle.std.specs.Prelude.{◌≡◌, ◌≤◌, ◌<◌, ◌^◌, ℕ, IfSome};
ghost use Rattle.std.specs.Option.{option_and_then};
ghost use Rattle.topology.specs.Shapes.{Shape, injectors_of, parts_of};
ghost use Rattle.plans.specs.Steps.{IsStep};
ghost use Rattle.plans.specs.Named.{interval_in};
ghost use Rattle.plans.specs.Schedules.{worker_in, message_in, relay_in, injector_in, computation_in, done_alone, befalls, relay_alone, step_of_one, over_interval, for_part, taken_by, step_of_two, step_with, step_of};

use crate::named::{interval_in, is_word};
use crate::step::Step;
use run_history::Case;
use text_lines::{LineReader, below, between, first_word};

// What reads the lines of a schedule, for a case and so many relays.
#[derive(Drop)]
pub(crate) struct StepReader<'a> {
    pub(crate) case: &'a Case,
    pub(crate) weaks: u32,
}

impl<'a> LineReader for StepReader<'a> {
    type Said = Step;

    ghost reading = { λ by. step_of by.case.now.topology by.weaks };

    ghost lawful = { λ by. IsStep by.case.now.topology by.weaks };

    fn read(&self, line: &[u8]) -> Option<Step> {
        step_in(self.case, self.weaks, line)
    }
}

// The worker that a word names.
fn worker_in(word: &[u8]) -> Option<u32>
    ensures number { result ≡ worker_in word.now }
    ensures range { IfSome result (λ n. n < 16) }
{
    below(16, word)
}

// The message that a word names.
fn message_in(word: &[u8]) -> Option<u32>
    ensures number { result ≡ message_in word.now }
    ensures range { IfSome result (λ n. n < 2 ^ 32) }
{
    below(1 << 32, word)
}

// The relay that a word names, where there are so many.
fn relay_in(weaks: u32, word: &[u8]) -> Option<u32>
    ensures number { result ≡ relay_in weaks word.now }
    ensures range { IfSome result (λ n. n < weaks) }
{
    below(u64::from(weaks), word)
}

// The injector that a word names.
fn injector_in(case: &Case, word: &[u8]) -> Option<u32>
    ensures number { result ≡ injector_in case.now.topology word.now }
    ensures range { IfSome result (λ n. n < injectors_of case.now.topology) }
{
    below(u64::from(case.topology.injectors()), word)
}

// The computation that a word names.
fn computation_in(case: &Case, word: &[u8]) -> Option<u32>
    ensures number { result ≡ computation_in case.now.topology word.now }
    ensures range { IfSome result
        (λ n. (injectors_of case.now.topology ≤ n) × (n < parts_of case.now.topology)) }
{
    let injectors = u64::from(case.topology.injectors());
    between(injectors, u64::from(case.topology.parts()), word)
}

// ---- a verb and one number

// What a worker does alone.
fn done_alone(verb: &[u8], word: &[u8]) -> Option<Step>
    ensures step { result ≡ option_and_then (done_alone verb.now) (worker_in word.now) }
    ensures there { (shape : Shape) (relays : ℕ) → IfSome result (IsStep shape relays) }
{
    let worker = worker_in(word)?;
    if is_word(verb, "send") {
        Some(Step::Send { worker })
    } else if is_word(verb, "write") {
        Some(Step::Write { worker })
    } else if is_word(verb, "resend") {
        Some(Step::Resend { worker })
    } else if is_word(verb, "crash") {
        Some(Step::Crash { worker })
    } else {
        None
    }
}

// What befalls a message.
fn befalls(verb: &[u8], word: &[u8]) -> Option<Step>
    ensures step { result ≡ option_and_then (befalls verb.now) (message_in word.now) }
    ensures there { (shape : Shape) (relays : ℕ) → IfSome result (IsStep shape relays) }
{
    let message = message_in(word)?;
    if is_word(verb, "copy") {
        Some(Step::Repeat { message })
    } else if is_word(verb, "lose") {
        Some(Step::Lose { message })
    } else {
        None
    }
}

// What a relay does alone.
fn relay_alone(weaks: u32, verb: &[u8], word: &[u8]) -> Option<Step>
    ensures step { result ≡ option_and_then (relay_alone verb.now) (relay_in weaks word.now) }
    ensures there { (shape : Shape) → IfSome result (IsStep shape weaks) }
{
    let relay = relay_in(weaks, word)?;
    if is_word(verb, "forget") {
        Some(Step::Forget { relay })
    } else {
        None
    }
}

// The step of a verb and one number.
fn step_of_one(weaks: u32, verb: &[u8], word: &[u8]) -> Option<Step>
    ensures step { result ≡ step_of_one weaks verb.now word.now }
    ensures there { (shape : Shape) → IfSome result (IsStep shape weaks) }
{
    done_alone(verb, word)
        .or(befalls(verb, word))
        .or(relay_alone(weaks, verb, word))
}

// ---- a verb and two numbers

// What a worker does with an interval.
fn over_interval(case: &Case, verb: &[u8], a: &[u8], b: &[u8]) -> Option<Step>
    ensures step { result ≡ over_interval case.now.topology verb.now a.now b.now }
    ensures there { (relays : ℕ) → IfSome result (IsStep case.now.topology relays) }
{
    let worker = worker_in(a)?;
    let interval = interval_in(case, b)?;
    if is_word(verb, "claim") {
        Some(Step::Claim { worker, interval })
    } else if is_word(verb, "report") {
        Some(Step::Report { worker, interval })
    } else if is_word(verb, "purge") {
        Some(Step::Purge { worker, interval })
    } else {
        None
    }
}

// What a worker does for a part.
fn for_part(case: &Case, verb: &[u8], a: &[u8], b: &[u8]) -> Option<Step>
    ensures step { result
        ≡ option_and_then (for_part case.now.topology verb.now b.now) (worker_in a.now) }
    ensures there { (relays : ℕ) → IfSome result (IsStep case.now.topology relays) }
{
    let worker = worker_in(a)?;
    if is_word(verb, "inject") {
        let part = injector_in(case, b)?;
        Some(Step::Inject { worker, part })
    } else if is_word(verb, "fire") {
        let part = computation_in(case, b)?;
        Some(Step::Fire { worker, part })
    } else {
        None
    }
}

// Who takes a message.
fn taken_by(weaks: u32, verb: &[u8], a: &[u8], b: &[u8]) -> Option<Step>
    ensures step { result
        ≡ option_and_then (taken_by weaks verb.now a.now) (message_in b.now) }
    ensures there { (shape : Shape) → IfSome result (IsStep shape weaks) }
{
    let message = message_in(b)?;
    if is_word(verb, "take") {
        let worker = worker_in(a)?;
        Some(Step::Take { worker, message })
    } else if is_word(verb, "relay") {
        let relay = relay_in(weaks, a)?;
        Some(Step::Relay { relay, message })
    } else {
        None
    }
}

// The step of a verb and two numbers.
fn step_of_two(case: &Case, weaks: u32, verb: &[u8], a: &[u8], b: &[u8]) -> Option<Step>
    ensures step { result ≡ step_of_two case.now.topology weaks verb.now a.now b.now }
    ensures there { IfSome result (IsStep case.now.topology weaks) }
{
    over_interval(case, verb, a, b)
        .or(for_part(case, verb, a, b))
        .or(taken_by(weaks, verb, a, b))
}

// ---- a line

// The step of a verb and what stands behind it.
fn step_with(case: &Case, weaks: u32, verb: &[u8], numbers: &[u8]) -> Option<Step>
    ensures step { result ≡ step_with case.now.topology weaks verb.now numbers.now }
    ensures there { IfSome result (IsStep case.now.topology weaks) }
{
    if let Some((a, b)) = first_word(numbers) {
        return step_of_two(case, weaks, verb, a, b);
    }
    step_of_one(weaks, verb, numbers)
}

// The step that a line says.
fn step_in(case: &Case, weaks: u32, line: &[u8]) -> Option<Step>
    ensures step { result ≡ step_of case.now.topology weaks line.now }
    ensures there { IfSome result (IsStep case.now.topology weaks) }
{
    let (verb, numbers) = first_word(line)?;
    step_with(case, weaks, verb, numbers)
}
