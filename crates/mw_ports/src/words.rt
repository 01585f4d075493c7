//! The words that a process was called with.
ghost use Rattle.std.specs.Prelude.{◌≡◌, ◌↔◌, ◌⊎◌, Err, drop, map, IfErr, IfOk};
ghost use Rattle.std.specs.IoError.{error_kind};
ghost use Rattle.std.specs.String.{string_bytes};
ghost use Rattle.std.specs.Vec.Iter.{into_iter_items};

use mw_types::{Name, NoMemory, Seq};
use std::alloc::Global;
use std::env::Args;
use std::io::{Error, ErrorKind};

/// Why the words of a call were not read.
#[derive(Clone, Copy, PartialEq, Eq)]
pub enum WordsFault {
    /// Memory ran out.
    NoMemory,
    /// A word is no text in UTF-8, or the words could not be read.
    NoText,
}

impl From<NoMemory> for WordsFault {
    ghost use Rattle.std.specs.Prelude.{◌≡◌};
    ghost use Rattle.mw_ports.specs.declared.words.WordsFault.TheVariants as faults;

    ghost from_gives = { λ _ fault. fault ≡ faults.NoMemory };

    fn from(_want: NoMemory) -> WordsFault {
        WordsFault::NoMemory
    }
}

/// The words that a process was called with, without its own name, which comes first. They are
/// those that `env::args` answers, and where one is no text it answers an error.
pub fn words_of(alloc: Global, args: Result<Args, Error>) -> Result<Seq<Name>, WordsFault>
    ensures words { IfOk args (λ all. IfOk result (λ words.
        words ≡ map string_bytes (drop 1 (into_iter_items all)))) }
    ensures no_memory { IfOk args (λ _. IfErr result (λ fault. fault ≡ WordsFault.NoMemory)) }

    // Where the runtime has no words, that memory ran out is told apart from all else.
    ensures unread { IfErr args (λ error.
        (result ≡ Err WordsFault.NoMemory) ↔ (error_kind error ≡ ErrorKind.OutOfMemory)) }
    ensures refused { IfErr args (λ _.
        (result ≡ Err WordsFault.NoMemory) ⊎ (result ≡ Err WordsFault.NoText)) }
{
    match args {
        Ok(mut all) => {
            let _own_name = all.next();
            let words = names_of(alloc, all)?;
            Ok(words)
        }
        Err(error) => Err(fault_of(&error)),
    }
}

// These texts as names.
fn names_of(alloc: Global, texts: Args) -> Result<Seq<Name>, NoMemory>
    ensures { IfOk result (λ names. names ≡ map string_bytes (into_iter_items texts)) }
{
    let mut names = Seq::new(alloc);
    for text in texts {
        names.push(Name::of(alloc, text.as_str())?)?;
    }
    Ok(names)
}

// What it means that the runtime has no words.
fn fault_of(why: &Error) -> WordsFault
    ensures lack { (result ≡ WordsFault.NoMemory) ↔ (error_kind why.now ≡ ErrorKind.OutOfMemory) }
    ensures refused { (result ≡ WordsFault.NoMemory) ⊎ (result ≡ WordsFault.NoText) }
{
    if why.kind() == ErrorKind::OutOfMemory {
        WordsFault::NoMemory
    } else {
        WordsFault::NoText
    }
}
