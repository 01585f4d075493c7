//! The command that the words are.
ghost use Rattle.std.specs.Prelude.{◌≡◌, ◌≤◌, ◌∷◌, [], Err, IfOk, IfSome, MatchOption, None, Some};
ghost use Rattle.command_line.specs.Grammar.{AreSizes, HasSizes, audit_of, call_of, call_with, collect_of, command_from, command_of, has_options, has_rounds, inputs_in, inputs_of, load_of, number_asked, plain_of, replay_of, run_numbers, run_of, solo_of, untraced_of};

use crate::command::{Call, Command, Inputs};
use crate::line::{Line, line_of};
use crate::number::number_in;
use crate::refusal::WordsRefusal;
use mw_types::{Name, Seq};
use std::alloc::Global;
use std::mem;
use text_lines::LINES_MAX;

// The greatest seed.
const SEED_LIMIT: u32 = u32::MAX;

// How many workers a run may have.
const WORKERS_MAX: u32 = 16;

// How many rounds a run may have.
const ROUNDS_MAX: u32 = 1000;

// Takes the first element of a list away.
fn first_of(words: &mut Seq<Name>) -> Option<Name>
    ensures first { MatchOption result (words.old ≡ []) (λ word. words.old ≡ word ∷ words.new) }
{
    if words.is_empty() {
        None
    } else {
        Some(words.remove(0))
    }
}

// What a run reads.
fn inputs_of(mut args: Seq<Name>, history: bool, live: bool) -> Option<Inputs>
    ensures inputs { result ≡ inputs_of args history live }
    ensures live { IfSome result (λ inputs. inputs.live ≡ live) }
{
    let topology = first_of(&mut args)?;
    if args.is_empty() {
        return None;
    }
    Some(Inputs {
        topology,
        events: args,
        history,
        live,
    })
}

// The number that an option asks for, from the one on and up to the other.
fn number_asked(least: u32, most: u32, value: &Option<Name>) -> Option<u32>
    ensures number { result ≡ number_asked least most value.now }
    ensures range { IfSome result (λ n. (least ≤ n) × (n ≤ most)) }
{
    match value {
        Some(word) => number_in(least, most, word.text()),
        None => None,
    }
}

impl Line {
    // Whether there are workers or rounds.
    fn has_rounds(&self) -> bool
        ensures rounds { result ≡ has_rounds self.now }
    {
        self.workers.is_some() || self.rounds.is_some()
    }

    // Whether there is an option beside `--trace`, or a flag.
    fn has_options(&self) -> bool
        ensures options { result ≡ has_options self.now }
    {
        self.has_rounds() || self.plan.is_some() || self.keep.is_some() || self.history || self.live
    }

    // What a run reads, by the flags.
    fn inputs(&self, args: Seq<Name>) -> Option<Inputs>
        ensures inputs { result ≡ inputs_in args self.now }
    {
        if self.history && self.live {
            return None;
        }
        inputs_of(args, self.history, self.live)
    }

    // The call of mode solo.
    fn solo(&self, args: Seq<Name>) -> Option<Call>
        ensures call { result ≡ solo_of args self.now }
        ensures sizes { IfSome result HasSizes }
    {
        if self.has_rounds() || self.plan.is_some() {
            return None;
        }
        let inputs = self.inputs(args)?;
        Some(Call::Solo { inputs })
    }

    // The call of mode replay, which takes the plan's name out of the line.
    fn replay(&mut self, args: Seq<Name>) -> Option<Call>
        ensures call { result ≡ replay_of args self.old }
        ensures sizes { IfSome result HasSizes }
        ensures keep { self.new.keep ≡ self.old.keep }
    {
        if self.has_rounds() {
            return None;
        }
        let plan = self.plan.take()?;
        let inputs = self.inputs(args)?;
        Some(Call::Replay { plan, inputs })
    }

    // How many workers and rounds are asked for.
    fn numbers(&self) -> Option<(u32, u32)>
        ensures numbers { result ≡ run_numbers self.now }
        ensures sizes { IfSome result (λ numbers. AreSizes numbers.0 numbers.1) }
    {
        let workers = number_asked(1, WORKERS_MAX, &self.workers)?;
        let rounds = number_asked(0, ROUNDS_MAX, &self.rounds)?;
        Some((workers, rounds))
    }

    // The call of mode run, which takes the plan's name out of the line.
    fn run(&mut self, args: Seq<Name>) -> Option<Call>
        ensures call { result ≡ run_of args self.old }
        ensures sizes { IfSome result HasSizes }
        ensures keep { self.new.keep ≡ self.old.keep }
    {
        if self.keep.is_some() || self.live {
            return None;
        }
        let (workers, rounds) = self.numbers()?;
        let inputs = inputs_of(args, self.history, false)?;
        let plan = self.plan.take();
        Some(Call::Run {
            workers,
            rounds,
            plan,
            inputs,
        })
    }

    // The call of mode plain.
    fn plain(&self, args: Seq<Name>) -> Option<Call>
        ensures call { result ≡ plain_of args self.now }
        ensures sizes { IfSome result HasSizes }
    {
        match inputs_of(args, false, false) {
            Some(inputs) if !self.has_options() => Some(Call::Plain { inputs }),
            _ => None,
        }
    }

    // The call of mode load.
    fn load(&self, args: &[Name]) -> Option<Call>
        ensures call { result ≡ load_of args.now self.now }
        ensures sizes { IfSome result HasSizes }
    {
        let [seed, lines] = args else {
            return None;
        };
        if self.has_options() {
            return None;
        }
        let seed = number_in(0, SEED_LIMIT, seed.text())?;
        let lines = number_in(1, LINES_MAX, lines.text())?;
        Some(Call::Load { seed, lines })
    }

    // The call of mode collect.
    fn collect(&self, mut args: Seq<Name>) -> Option<Call>
        ensures call { result ≡ collect_of args self.now }
        ensures sizes { IfSome result HasSizes }
    {
        let file = first_of(&mut args)?;
        if !args.is_empty() || self.has_options() {
            return None;
        }
        Some(Call::Collect { file })
    }

    // The call of mode audit, which takes the trace's name out of the line.
    fn audit(&mut self, args: Seq<Name>) -> Option<Call>
        ensures call { result ≡ audit_of args self.old }
        ensures sizes { IfSome result HasSizes }
        ensures keep { self.new.keep ≡ self.old.keep }
    {
        if self.has_options() {
            return None;
        }
        let trace = self.trace.take()?;
        let inputs = inputs_of(args, false, false)?;
        Some(Call::Audit { inputs, trace })
    }

    // The call of a mode without a trace.
    fn untraced(&mut self, mode: &str, args: Seq<Name>) -> Option<Call>
        ensures call { result ≡ untraced_of mode.now args self.old }
        ensures sizes { IfSome result HasSizes }
        ensures keep { self.new.keep ≡ self.old.keep }
    {
        if mode == "solo" {
            self.solo(args)
        } else if mode == "replay" {
            self.replay(args)
        } else if mode == "run" {
            self.run(args)
        } else if mode == "plain" {
            self.plain(args)
        } else if mode == "load" {
            self.load(args.as_slice())
        } else if mode == "collect" {
            self.collect(args)
        } else {
            None
        }
    }

    // The call of a mode with these arguments.
    fn with(&mut self, mode: &str, args: Seq<Name>) -> Option<Call>
        ensures call { result ≡ call_with mode.now args self.old }
        ensures sizes { IfSome result HasSizes }
        ensures keep { self.new.keep ≡ self.old.keep }
    {
        if mode == "audit" {
            self.audit(args)
        } else if self.trace.is_some() {
            None
        } else {
            self.untraced(mode, args)
        }
    }

    // The call of the positionals, which have been taken out of the line.
    fn call(&mut self, mut positionals: Seq<Name>) -> Option<Call>
        ensures call { result ≡ call_of positionals self.old }
        ensures sizes { IfSome result HasSizes }
        ensures keep { self.new.keep ≡ self.old.keep }
    {
        let mode = first_of(&mut positionals)?;
        self.with(mode.text(), positionals)
    }
}

// The command that a line is, out of which it takes the words.
fn command_from(alloc: Global, line: &mut Line) -> Option<Command>
    ensures command { result ≡ command_from line.old }
    ensures sizes { IfSome result (λ command. HasSizes command.call) }
{
    let positionals = mem::replace(&mut line.positionals, Seq::new(alloc));
    let call = line.call(positionals)?;
    let keep = line.keep.take();
    Some(Command { call, keep })
}

/// Reads the words of a command line, which follow the program's name.
///
/// An option stands as `--keep NAME` or `--keep=NAME` before or after the positionals, once at most; a word
/// `--` ends the options. A number has one to ten decimal digits. `Usage` comes exactly where the words are
/// no command.
pub fn read_words(alloc: Global, words: &[Name]) -> Result<Command, WordsRefusal>
    ensures command { IfOk result (λ command. command_of words.now ≡ Some command) }
    ensures usage { result ≡ Err WordsRefusal.Usage → command_of words.now ≡ None }

    // The numbers of a run are within their limits, and its results are wanted at its end.
    ensures sizes { IfOk result (λ command. HasSizes command.call) }
{
    let mut line = line_of(alloc, words)?;
    command_from(alloc, &mut line).ok_or(WordsRefusal::Usage)
}
