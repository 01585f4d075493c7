//! What the words of the command line ask for: of a caller that has no threads, and of the rows that are kept.
ghost use Rattle.std.specs.Prelude.{◌≡◌, Err, IfOk, None, Some, false, true};
ghost use Rattle.command_line.specs.Grammar.{HasSizes};
ghost use Rattle.millwheel_cli.specs.Asked.{alone_of, has_task, is_run, keep_of};

use command_line::{Call, Command, WordsRefusal, read_words};
use mw_types::{Name, NoMemory};
use std::alloc::Global;

/// The name of the database in which the words ask for the rows to be kept, and none where they ask for
/// none or are no command.
pub fn keep_name(alloc: Global, words: &[Name]) -> Result<Option<Name>, NoMemory>
    ensures name { IfOk result (λ name. name ≡ keep_of words.now) }
{
    match read_words(alloc, words) {
        Ok(command) => Ok(command.keep),
        Err(WordsRefusal::Usage) => Ok(None),
        Err(WordsRefusal::NoMemory) => Err(NoMemory),
    }
}

/// The command that the words are to a caller that has no threads.
pub fn read_alone(alloc: Global, words: &[Name]) -> Result<Command, WordsRefusal>
    ensures command { IfOk result (λ command. alone_of words.now ≡ Some command) }
    ensures usage { result ≡ Err WordsRefusal.Usage → alone_of words.now ≡ None }
    ensures sizes { IfOk result (λ command. HasSizes command.call) }
    ensures alone { IfOk result (λ command. is_run command.call ≡ false) }
{
    let command = read_words(alloc, words)?;
    if is_run(&command.call) {
        drop(command);
        return Err(WordsRefusal::Usage);
    }
    Ok(command)
}

// Whether a call asks for rounds of workers.
fn is_run(call: &Call) -> bool
    ensures { result ≡ is_run call.now }
{
    match call {
        Call::Run { .. } => true,
        Call::Solo { .. }
        | Call::Replay { .. }
        | Call::Plain { .. }
        | Call::Load { .. }
        | Call::Collect { .. }
        | Call::Audit { .. } => false,
    }
}

/// Whether a call has a task, which is run or counted.
pub fn has_task(call: &Call) -> bool
    ensures { result ≡ has_task call.now }
{
    match call {
        Call::Solo { .. }
        | Call::Replay { .. }
        | Call::Run { .. }
        | Call::Plain { .. }
        | Call::Load { .. } => true,
        Call::Collect { .. } | Call::Audit { .. } => false,
    }
}
