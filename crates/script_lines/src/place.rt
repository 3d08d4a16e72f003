//! The places that a script names.

ghost use Rattle.std.specs.Prelude.{◌≡◌, ◌++◌, ◌∷◌, [], ℕ, List, IfOk, IfSome, IsNone, Err};
ghost use Rattle.script_lines.specs.Spelling.{Number, Place};
ghost use Rattle.script_lines.specs.declared.command.TextPlace.{TextPlace as AnyPlace};
ghost use Rattle.script_lines.specs.declared.refused.CommandRefused.TheVariants.{Syntax};

use crate::command::TextPlace;
use crate::name::Name;
use crate::refused::CommandRefused;
use line_words::number;
use std::alloc::Global;

/// The place that the word spells. It is refused as syntax exactly where the word spells none.
pub fn parse_place(alloc: Global, word: &[u8]) -> Result<TextPlace, CommandRefused>
    ensures ok { IfOk result (λ place. Place place word.now) }
    ensures syntax { result ≡ Err Syntax → (place : AnyPlace) → Place place word.now → ⊥ }
{
    if let Some(index) = word.strip_prefix(b"@") {
        return Ok(TextPlace::Cell(parse_number(index)?));
    }
    if let Some(index) = word.strip_prefix(b"~") {
        return Ok(TextPlace::WeakCell(parse_number(index)?));
    }
    let Some((name, field)) = split_field(word) else {
        return Err(CommandRefused::Syntax);
    };
    match field {
        b'0' => Ok(TextPlace::Field(Name::parse(alloc, name)?, 0)),
        b'1' => Ok(TextPlace::Field(Name::parse(alloc, name)?, 1)),
        b'w' => Ok(TextPlace::WeakField(Name::parse(alloc, name)?)),
        _ => Err(CommandRefused::Syntax),
    }
}

/// The number that the word spells. It is refused as syntax exactly where the word spells none.
pub fn parse_number(word: &[u8]) -> Result<u128, CommandRefused>
    ensures ok { IfOk result (λ n. Number n word.now) }
    ensures syntax { result ≡ Err Syntax → (n : ℕ) → Number n word.now → ⊥ }
{
    number(word).ok_or(CommandRefused::Syntax)
}

// A word that ends in a colon and one more byte: what stands before the colon, and this byte.
fn split_field(word: &[u8]) -> Option<(&[u8], u8)>
    ensures some { IfSome result (λ parts. word.now ≡ parts.0.now ++ 58 ∷ parts.1 ∷ []) }
    ensures none { IsNone result
        → (front : List ℕ) (last : ℕ) → word.now ≡ front ++ 58 ∷ last ∷ [] → ⊥ }
{
    match word {
        [front @ .., b':', last] => Some((front, *last)),
        _ => None,
    }
}
