//! The numbers among the words.
ghost use Rattle.std.specs.Prelude.{◌≡◌, ◌≤◌, IfSome};
ghost use Rattle.command_line.specs.Grammar.{number_in};

use text_lines::between;

/// The number that a word is, where it is from the one on and up to the other.
pub(crate) fn number_in(least: u32, most: u32, word: &str) -> Option<u32>
    ensures number { result ≡ number_in least most word.now }
    ensures range { IfSome result (λ n. (least ≤ n) × (n ≤ most)) }
{
    between(u64::from(least), u64::from(most) + 1, word.as_bytes())
}
