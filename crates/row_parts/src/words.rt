//! The bytes of several numbers side by side, so that a value is appended at once.
ghost use Rattle.std.specs.Prelude.{◌≡◌, ◌∷◌, []};
ghost use Rattle.std.specs.List.{concat};
ghost use Rattle.std.specs.Int.{w32, w64, to_be_bytes};
ghost use Rattle.row_parts.specs.Spelling.{flag_spelling};

// Each number is copied whole: byte by byte they would be stored so, which takes five times as long.

// The bytes of a number, and of a short one.
pub(crate) fn word_and_half(first: u64, second: u32) -> [u8; 12]
    ensures { result ≡ concat (to_be_bytes w64 first ∷ to_be_bytes w32 second ∷ []) }
{
    let mut bytes = [0; 12];
    bytes[..8].copy_from_slice(&first.to_be_bytes());
    bytes[8..].copy_from_slice(&second.to_be_bytes());
    bytes
}

// The bytes of two numbers.
pub(crate) fn two_words(first: u64, second: u64) -> [u8; 16]
    ensures { result ≡ concat (to_be_bytes w64 first ∷ to_be_bytes w64 second ∷ []) }
{
    let mut bytes = [0; 16];
    bytes[..8].copy_from_slice(&first.to_be_bytes());
    bytes[8..].copy_from_slice(&second.to_be_bytes());
    bytes
}

// The bytes of two numbers, and of a truth value.
pub(crate) fn two_words_and_flag(first: u64, second: u64, flag: bool) -> [u8; 17]
    ensures { result
        ≡ concat (to_be_bytes w64 first ∷ to_be_bytes w64 second ∷ flag_spelling flag ∷ []) }
{
    let mut bytes = [0; 17];
    bytes[..8].copy_from_slice(&first.to_be_bytes());
    bytes[8..16].copy_from_slice(&second.to_be_bytes());
    bytes[16] = if flag { 1 } else { 0 };
    bytes
}
