//! What the words of a command line say before its mode is looked at.
ghost use Rattle.std.specs.Prelude.{◌≡◌, ◌≢◌, ◌++◌, IfOk, List, OnOk, codes, false, map};
ghost use Rattle.clap.specs.Walk.{first_of};
ghost use Rattle.command_line.specs.Words.{line_of, no_words};
ghost use Rattle.command_line.specs.Clap.{HasFlag, HasFlags, IsFlagIn, IsLineIn, has_short, rows_in, values_in, with_files, with_numbers, with_words};
ghost use Rattle.command_line.specs.Inside.{Answers};

use crate::parser::parser;
use crate::refusal::WordsRefusal;
use crate::word::has_short;
use clap::ArgMatches;
use clap::error::ErrorKind;
use mw_types::{Name, NoMemory, Seq};
use std::alloc::Global;

/// The positionals in their order, the value of each option that is given, and whether each flag is.
#[derive(Drop)]
pub(crate) struct Line {
    pub(crate) positionals: Seq<Name>,
    pub(crate) plan: Option<Name>,
    pub(crate) workers: Option<Name>,
    pub(crate) rounds: Option<Name>,
    pub(crate) keep: Option<Name>,
    pub(crate) trace: Option<Name>,
    pub(crate) history: bool,
    pub(crate) live: bool,
}

// The words as texts.
fn texts_of(alloc: Global, words: &[Name]) -> Result<Vec<&str>, NoMemory>
    ensures texts { IfOk result (λ texts. map (λ text. text.now) texts.items ≡ words.now) }
{
    let mut texts = Vec::new(alloc);
    for word in words {
        texts.push(word.text())?;
    }
    Ok(texts)
}

// Adds these texts behind the names that are there.
fn add_all(alloc: Global, names: &mut Seq<Name>, texts: &[&str]) -> Result<(), NoMemory>
    ensures added { OnOk result (names.new ≡ names.old ++ map (λ text. text.now) texts.now) }
{
    for text in texts {
        names.push(Name::of(alloc, text)?)?;
    }
    Ok(())
}

// Adds the values of a positional behind the names that are there.
fn add_values(
    alloc: Global,
    names: &mut Seq<Name>,
    matches: &ArgMatches<'_>,
    id: &str,
) -> Result<(), NoMemory>
    ensures added { OnOk result (names.new ≡ names.old ++ values_in (rows_in matches.now) id.now) }
{
    match matches.get_strs(id) {
        Some(texts) => add_all(alloc, names, texts),
        None => Ok(()),
    }
}

// The value of an option, where it is given.
fn value_of(alloc: Global, matches: &ArgMatches<'_>, id: &str) -> Result<Option<Name>, NoMemory>
    ensures value { IfOk result (λ value. value ≡ first_of id.now (rows_in matches.now)) }
{
    match matches.get_str(id) {
        Some(text) => Ok(Some(Name::of(alloc, text)?)),
        None => Ok(None),
    }
}

// Takes in the names of files that are options.
fn add_files(alloc: Global, line: &mut Line, matches: &ArgMatches<'_>) -> Result<(), NoMemory>
    ensures files { OnOk result (line.new ≡ with_files (rows_in matches.now) line.old) }
{
    line.plan = value_of(alloc, matches, "plan")?;
    line.keep = value_of(alloc, matches, "keep")?;
    line.trace = value_of(alloc, matches, "trace")?;
    Ok(())
}

// Takes in the numbers that are options.
fn add_numbers(alloc: Global, line: &mut Line, matches: &ArgMatches<'_>) -> Result<(), NoMemory>
    ensures numbers { OnOk result (line.new ≡ with_numbers (rows_in matches.now) line.old) }
{
    line.workers = value_of(alloc, matches, "workers")?;
    line.rounds = value_of(alloc, matches, "rounds")?;
    Ok(())
}

// Takes in the positionals.
fn add_words(alloc: Global, line: &mut Line, matches: &ArgMatches<'_>) -> Result<(), NoMemory>
    ensures words { OnOk result (line.new ≡ with_words (rows_in matches.now) line.old) }
{
    add_values(alloc, &mut line.positionals, matches, "mode")?;
    add_values(alloc, &mut line.positionals, matches, "args")
}

// Takes in all of them.
fn add_found(alloc: Global, line: &mut Line, matches: &ArgMatches<'_>) -> Result<(), NoMemory>
    ensures found { OnOk result (line.new ≡ with_numbers (rows_in matches.now)
        (with_files (rows_in matches.now) (with_words (rows_in matches.now) line.old))) }
{
    add_words(alloc, line, matches)?;
    add_files(alloc, line, matches)?;
    add_numbers(alloc, line, matches)
}

// Whether a flag is given.
fn has_flag(matches: &ArgMatches<'_>, id: &str) -> bool
    requires read { HasFlag (rows_in matches.now) id.now }

    ensures flag { IsFlagIn (rows_in matches.now) id.now result }
{
    matches.get_flag(id)
}

// The line without a word, but for the flags that `clap` found.
fn flags_in(alloc: Global, matches: &ArgMatches<'_>) -> Line
    requires read { HasFlags (rows_in matches.now) }

    ensures line { result ≡ record no_words { history = result.history; live = result.live } }
    ensures history { IsFlagIn (rows_in matches.now) (codes "history") result.history }
    ensures live { IsFlagIn (rows_in matches.now) (codes "live") result.live }
{
    Line {
        positionals: Seq::new(alloc),
        plan: None,
        workers: None,
        rounds: None,
        keep: None,
        trace: None,
        history: has_flag(matches, "history"),
        live: has_flag(matches, "live"),
    }
}

// The line that `clap` found.
fn line_in(alloc: Global, matches: &ArgMatches<'_>) -> Result<Line, NoMemory>
    requires read { HasFlags (rows_in matches.now) }

    ensures line { IfOk result (IsLineIn (rows_in matches.now)) }
{
    let mut line = flags_in(alloc, matches);
    add_found(alloc, &mut line, matches)?;
    Ok(line)
}

// What an error of `clap` is here.
fn refusal_of(kind: ErrorKind) -> WordsRefusal
    ensures usage { result ≡ WordsRefusal.Usage → kind ≢ ErrorKind.OutOfMemory }
{
    match kind {
        ErrorKind::OutOfMemory => WordsRefusal::NoMemory,
        _ => WordsRefusal::Usage,
    }
}

// The line that these texts are. None of them before the first `--` begins with one `-` alone.
fn line_of_texts(alloc: Global, texts: &[&str]) -> Result<Line, WordsRefusal>
    requires long { has_short (map (λ text. text.now) texts.now) ≡ false }

    ensures line { Answers (λ line. line) (line_of (map (λ text. text.now) texts.now)) result }
{
    match parser(alloc)?.try_get_matches_from(texts) {
        Ok(matches) => Ok(line_in(alloc, &matches)?),
        Err(error) => Err(refusal_of(error.kind())),
    }
}

/// What the words say, where their options are in order.
pub(crate) fn line_of(alloc: Global, words: &[Name]) -> Result<Line, WordsRefusal>
    ensures line { Answers (λ line. line) (line_of words.now) result }
{
    if has_short(words) {
        return Err(WordsRefusal::Usage);
    }
    let texts = texts_of(alloc, words)?;
    line_of_texts(alloc, texts.as_slice())
}
