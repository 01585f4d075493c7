//! The arrays of two seats as one.
ghost use Rattle.std.specs.Prelude.{◌≡◌, ℕ, cond, max, nat_lt, slice_index};
ghost use Rattle.shared_book.specs.Settling.{IsFilledTo};

// Of each two numbers the greater.
pub(crate) fn greater_of(one: &[u64; 61], other: &[u64; 61]) -> [u64; 61]
    ensures { IsFilledTo (λ (k : ℕ). max (slice_index one.now k) (slice_index other.now k))
        one.now 61 result }
{
    let mut greater = *one;
    for at in 0..61 {
        greater[at] = one[at].max(other[at]);
    }
    greater
}

// Of each two numbers the other where its claim is the newer, and else the one.
pub(crate) fn newer_of(
    claims: &[u64; 61],
    other_claims: &[u64; 61],
    one: &[u64; 61],
    other: &[u64; 61],
) -> [u64; 61]
    ensures { IsFilledTo (λ (k : ℕ). cond (nat_lt (slice_index claims.now k)
        (slice_index other_claims.now k)) (slice_index other.now k) (slice_index one.now k))
        one.now 61 result }
{
    let mut newer = *one;
    for at in 0..61 {
        newer[at] = if claims[at] < other_claims[at] {
            other[at]
        } else {
            one[at]
        };
    }
    newer
}
