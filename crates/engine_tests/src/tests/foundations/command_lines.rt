//! Command lines, each with what it is read as.
use super::lines::LINES;
use super::{Holds, all_hold, made, push_number, push_parts};
use command_line::{Call, Command, Inputs, WordsRefusal, read_words};
use mw_types::{Name, Seq};
use std::alloc::Global;
use std::process::Abort;

// Appends the words of a line that has some, as names.
fn push_words(rt: &impl Abort, alloc: Global, words: &mut Seq<Name>, line: &str) {
    for word in line.split(' ') {
        let text = if word == "\"\"" { "" } else { word };
        made(rt, words.push(made(rt, Name::of(alloc, text))));
    }
}

// Appends a word and a name in brackets where there is one.
fn say_name<'x>(rt: &impl Abort, said: &mut String, word: &'x str, name: Option<&'x Name>) {
    if let Some(name) = name {
        push_parts(
            rt,
            said,
            &[(word, 1), (" [", 1), (name.text(), 1), ("]", 1)],
        );
    }
}

// Appends a word, and two numbers.
fn say_numbers(rt: &impl Abort, alloc: Global, said: &mut String, word: &str, numbers: [u32; 2]) {
    made(rt, said.push_str(word));
    for number in &numbers {
        made(rt, said.push_str(" "));
        push_number(rt, alloc, said, *number);
    }
}

// Appends a word, and what a run reads.
fn say_inputs(rt: &impl Abort, said: &mut String, word: &str, inputs: &Inputs) {
    say_name(rt, said, word, Some(&inputs.topology));
    for name in inputs.events.as_slice() {
        say_name(rt, said, "", Some(name));
    }
    let history = inputs.history as u32;
    let live = inputs.live as u32;
    push_parts(rt, said, &[(" history", history), (" live", live)]);
}

// Appends what words are read as, with each name in brackets.
fn say_read(
    rt: &impl Abort,
    alloc: Global,
    said: &mut String,
    read: &Result<Command, WordsRefusal>,
) {
    let command = match read {
        Ok(command) => command,
        Err(WordsRefusal::Usage) => return made(rt, said.push_str("usage")),
        Err(WordsRefusal::NoMemory) => return made(rt, said.push_str("no memory")),
    };
    match &command.call {
        Call::Solo { inputs } => say_inputs(rt, said, "solo", inputs),
        Call::Replay { plan, inputs } => {
            say_name(rt, said, "replay", Some(plan));
            say_inputs(rt, said, "", inputs);
        }
        Call::Run {
            workers,
            rounds,
            plan,
            inputs,
        } => {
            say_numbers(rt, alloc, said, "run", [*workers, *rounds]);
            say_name(rt, said, " plan", plan.as_ref());
            say_inputs(rt, said, "", inputs);
        }
        Call::Plain { inputs } => say_inputs(rt, said, "plain", inputs),
        Call::Load { seed, lines } => say_numbers(rt, alloc, said, "load", [*seed, *lines]),
        Call::Audit { inputs, trace } => {
            say_name(rt, said, "audit", Some(trace));
            say_inputs(rt, said, "", inputs);
        }
        Call::Collect { file } => say_name(rt, said, "collect", Some(file)),
    }
    say_name(rt, said, " keep", command.keep.as_ref());
}

// A line, and what it is read as.
type Line = (&'static str, &'static str);

impl Holds for Line {
    fn holds<R: Abort>(&self, rt: &R, alloc: Global) -> bool {
        let (line, wanted) = self;
        let mut words = Seq::new(alloc);
        if !line.is_empty() {
            push_words(rt, alloc, &mut words, line);
        }
        let read = read_words(alloc, words.as_slice());
        drop(words);
        let mut said = String::new(alloc);
        say_read(rt, alloc, &mut said, &read);
        drop(read);
        let is_said = said.as_str() == *wanted;
        drop(said);
        is_said
    }
}

#[test]
fn each_line_is_its_command(rt: HostRuntime) {
    all_hold(&rt, rt.alloc(), &LINES);
}
