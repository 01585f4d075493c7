//! What a word of a line names, in plans of either mode.
ghost use Rattle.std.specs.Prelude.{◌≡◌, ◌<◌, IfSome};
ghost use Rattle.topology.specs.Rules.{interval_count};
ghost use Rattle.text_lines.specs.Words.{is_word};
ghost use Rattle.plans.specs.Named.{interval_in};

use run_history::Case;
use text_lines::below;

// The interval that a word names.
pub(crate) fn interval_in(case: &Case, word: &[u8]) -> Option<u32>
    ensures number { result ≡ interval_in case.now.topology word.now }
    ensures range { IfSome result (λ n. n < interval_count case.now.topology) }
{
    below(u64::from(case.interval_count()), word)
}

// Whether a word is this one.
pub(crate) fn is_word(word: &[u8], text: &str) -> bool
    ensures { result ≡ is_word word.now text.now }
{
    word == text.as_bytes()
}
