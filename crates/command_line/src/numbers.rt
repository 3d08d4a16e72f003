//! The numbers that words spell, within bounds.
ghost use Rattle.std.specs.Prelude.{ℕ, IfSome, IsNone, map};
ghost use Rattle.command_line.specs.Values.{IsNumberOr, IsNumberWithin};

use line_words::number;

/// The number within the bounds that the word spells. None exactly where it spells none.
pub(crate) fn number_within(word: &str, least: u64, most: u64) -> Option<u64>
    ensures found { IfSome result (IsNumberWithin least most word.now) }
    ensures none { IsNone result → (n : ℕ) → IsNumberWithin least most word.now n → ⊥ }
{
    let value = number(word.as_bytes())?;
    if value < u128::from(least) || value > u128::from(most) {
        return None;
    }
    Some(value as u64)
}

/// The number that the only value spells, or the default where there is no value. None exactly where the values mean no
/// number within the bounds.
pub(crate) fn number_or(default: u64, least: u64, most: u64, values: &[&str]) -> Option<u64>
    ensures found { IfSome result (IsNumberOr default least most (map (λ v. v.now) values.now)) }
    ensures none { IsNone result → (n : ℕ) →
        IsNumberOr default least most (map (λ v. v.now) values.now) n → ⊥ }
{
    match values {
        [] => Some(default),
        [word] => number_within(word, least, most),
        _ => None,
    }
}
