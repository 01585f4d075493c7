//! The words of a line, one by one.
ghost use Rattle.std.specs.Prelude.{◌≡◌};
ghost use Rattle.std.specs.Option.{option_map};
ghost use Rattle.text_lines.specs.Words.{word_of};

use memchr::memchr;

/// The first word of a text and what follows the space behind it, and none where the text has no space.
///
/// The last word is what a caller has left; it is not cut, so it may be a text with spaces of its own.
pub fn first_word(text: &[u8]) -> Option<(&[u8], &[u8])>
    ensures word { option_map (λ cut. (cut.0.now, cut.1.now)) result ≡ word_of text.now }
{
    match memchr(b' ', text) {
        Some(at) => Some((&text[..at], &text[at + 1..])),
        None => None,
    }
}
