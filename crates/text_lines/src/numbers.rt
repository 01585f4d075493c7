//! The numbers among the words.
ghost use Rattle.std.specs.Prelude.{◌≡◌, ◌≤◌, ◌<◌, ◌^◌, IfSome};
ghost use Rattle.text_lines.specs.Numbers.{below, between, number_of};

/// The number that a word of one to ten decimal digits is.
pub fn number_of(word: &[u8]) -> Option<u64>
    ensures number { result ≡ number_of word.now }
{
    if word.is_empty() || word.len() > 10 {
        return None;
    }
    let mut number: u64 = 0;
    for digit in word {
        if !digit.is_ascii_digit() {
            return None;
        }
        number = number * 10 + u64::from(*digit - b'0');
    }
    Some(number)
}

/// The number that a word is, where it is from the one on and below the other.
pub fn between(low: u64, high: u64, word: &[u8]) -> Option<u32>
    requires fits { high ≤ 2 ^ 32 }

    ensures number { result ≡ between low high word.now }
    ensures range { IfSome result (λ n. (low ≤ n) × (n < high)) }
{
    let number = number_of(word)?;
    if low <= number && number < high {
        Some(number as u32)
    } else {
        None
    }
}

/// The number that a word is, where it is below this one.
pub fn below(high: u64, word: &[u8]) -> Option<u32>
    requires fits { high ≤ 2 ^ 32 }

    ensures number { result ≡ below high word.now }
    ensures range { IfSome result (λ n. n < high) }
{
    between(0, high, word)
}
