//! The number that a word spells.

ghost use Rattle.std.specs.Prelude.{◌≡◌, ℕ, IfSome, IsNone};
ghost use Rattle.line_words.specs.Number.{capped, value_of, IsCappedNumber, IsDigits, IsNumber};

/// The number that the word spells, an optional `+` and one or more decimal digits; one above 2^128 - 1 gives
/// 2^128 - 1. None exactly where it spells none. Linear in the bytes.
pub fn number(word: &[u8]) -> Option<u128>
    ensures some { IfSome result (IsCappedNumber word.now) }
    ensures none { IsNone result → (n : ℕ) → IsNumber word.now n → ⊥ }
{
    digits_value(word.strip_prefix(b"+").unwrap_or(word))
}

// The capped value of digits. None exactly where the bytes aren't one or more digits.
fn digits_value(digits: &[u8]) -> Option<u128>
    ensures some { IfSome result (λ m. IsDigits digits.now × (m ≡ capped (value_of digits.now))) }
    ensures none { IsNone result → IsDigits digits.now → ⊥ }
{
    if digits.is_empty() {
        return None;
    }
    let mut value: u128 = 0;
    for digit in digits {
        if !digit.is_ascii_digit() {
            return None;
        }
        value = value
            .saturating_mul(10)
            .saturating_add((*digit - b'0') as u128);
    }
    Some(value)
}
