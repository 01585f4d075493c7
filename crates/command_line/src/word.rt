//! The rule on words that stands beside `clap`.
ghost use Rattle.std.specs.Prelude.{◌≡◌};
ghost use Rattle.command_line.specs.Clap.{has_short, is_short};
ghost use Rattle.command_line.specs.Words.{is_dashed};

use mw_types::Name;

// Whether bytes begin with `-`.
fn is_dashed(bytes: &[u8]) -> bool
    ensures dashed { result ≡ is_dashed bytes.now }
{
    match bytes {
        [first, ..] => *first == b'-',
        [] => false,
    }
}

// Whether bytes begin with one `-` alone.
fn is_short(bytes: &[u8]) -> bool
    ensures short { result ≡ is_short bytes.now }
{
    match bytes {
        [first, rest @ ..] => *first == b'-' && !is_dashed(rest),
        [] => false,
    }
}

/// Whether a word before the first `--` begins with one `-` alone. `clap` takes a lone `-` as a name or a
/// value, and there are no options of one letter.
pub(crate) fn has_short(words: &[Name]) -> bool
    ensures short { result ≡ has_short words.now }
{
    let mut rest = words;
    while let Some((word, others)) = rest.split_first() {
        if word.text() == "--" {
            return false;
        }
        if is_short(word.text().as_bytes()) {
            return true;
        }
        rest = others;
    }
    false
}
