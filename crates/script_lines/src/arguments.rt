//! The words after the first, by what they are to spell.

ghost use Rattle.std.specs.Prelude.{◌≡◌, ℕ, [], ◌∷◌, List, Option, IfOk, Err};
ghost use Rattle.line_words.specs.Words.{texts_of};
ghost use Rattle.script_lines.specs.Spelling.{Each, Named, NamedOrNull, Number, Place};
ghost use Rattle.script_lines.specs.declared.command.TextPlace.{TextPlace as AnyPlace};
ghost use Rattle.script_lines.specs.declared.refused.CommandRefused.TheVariants.{Syntax};

use crate::command::TextPlace;
use crate::name::Name;
use crate::place::{parse_number, parse_place};
use crate::refused::CommandRefused;
use std::alloc::Global;

/// One name.
pub fn one_name(alloc: Global, words: &[&[u8]]) -> Result<Name, CommandRefused>
    ensures ok { IfOk result (λ n. Each (Named n ∷ []) (texts_of words.now)) }
    ensures syntax { result ≡ Err Syntax → (n : List ℕ)
        → Each (Named n ∷ []) (texts_of words.now) → ⊥ }
{
    let [name] = words else {
        return Err(CommandRefused::Syntax);
    };
    Name::parse(alloc, name)
}

/// Two names.
pub fn two_names(alloc: Global, words: &[&[u8]]) -> Result<(Name, Name), CommandRefused>
    ensures ok { IfOk result (λ r. Each (Named r.0 ∷ Named r.1 ∷ []) (texts_of words.now)) }
    ensures syntax { result ≡ Err Syntax → (n m : List ℕ)
        → Each (Named n ∷ Named m ∷ []) (texts_of words.now) → ⊥ }
{
    let [first, second] = words else {
        return Err(CommandRefused::Syntax);
    };
    let first = Name::parse(alloc, first)?;
    Ok((first, Name::parse(alloc, second)?))
}

/// A name and a number.
pub fn name_and_number(alloc: Global, words: &[&[u8]]) -> Result<(Name, u128), CommandRefused>
    ensures ok { IfOk result (λ r. Each (Named r.0 ∷ Number r.1 ∷ []) (texts_of words.now)) }
    ensures syntax { result ≡ Err Syntax → (n : List ℕ) (i : ℕ)
        → Each (Named n ∷ Number i ∷ []) (texts_of words.now) → ⊥ }
{
    let [name, number] = words else {
        return Err(CommandRefused::Syntax);
    };
    let name = Name::parse(alloc, name)?;
    Ok((name, parse_number(number)?))
}

/// A place.
pub fn one_place(alloc: Global, words: &[&[u8]]) -> Result<TextPlace, CommandRefused>
    ensures ok { IfOk result (λ p. Each (Place p ∷ []) (texts_of words.now)) }
    ensures syntax { result ≡ Err Syntax → (p : AnyPlace)
        → Each (Place p ∷ []) (texts_of words.now) → ⊥ }
{
    let [place] = words else {
        return Err(CommandRefused::Syntax);
    };
    parse_place(alloc, place)
}

/// A place and a name.
pub fn place_and_name(alloc: Global, words: &[&[u8]]) -> Result<(TextPlace, Name), CommandRefused>
    ensures ok { IfOk result (λ r. Each (Place r.0 ∷ Named r.1 ∷ []) (texts_of words.now)) }
    ensures syntax { result ≡ Err Syntax → (p : AnyPlace) (n : List ℕ)
        → Each (Place p ∷ Named n ∷ []) (texts_of words.now) → ⊥ }
{
    let [place, name] = words else {
        return Err(CommandRefused::Syntax);
    };
    let place = parse_place(alloc, place)?;
    Ok((place, Name::parse(alloc, name)?))
}

/// A place, and twice a name or `null`.
pub fn place_and_two(
    alloc: Global,
    words: &[&[u8]],
) -> Result<(TextPlace, Option<Name>, Option<Name>), CommandRefused>
    ensures ok { IfOk result (λ r.
        Each (Place r.0 ∷ NamedOrNull r.1 ∷ NamedOrNull r.2 ∷ []) (texts_of words.now)) }
    ensures syntax { result ≡ Err Syntax → (p : AnyPlace) (old new : Option (List ℕ))
        → Each (Place p ∷ NamedOrNull old ∷ NamedOrNull new ∷ []) (texts_of words.now) → ⊥ }
{
    let [place, old, new] = words else {
        return Err(CommandRefused::Syntax);
    };
    let place = parse_place(alloc, place)?;
    let old = name_or_null(alloc, old)?;
    Ok((place, old, name_or_null(alloc, new)?))
}

/// Three numbers.
pub fn three_numbers(words: &[&[u8]]) -> Result<(u128, u128, u128), CommandRefused>
    ensures ok { IfOk result (λ r.
        Each (Number r.0 ∷ Number r.1 ∷ Number r.2 ∷ []) (texts_of words.now)) }
    ensures syntax { result ≡ Err Syntax → (i j k : ℕ)
        → Each (Number i ∷ Number j ∷ Number k ∷ []) (texts_of words.now) → ⊥ }
{
    let [first, second, third] = words else {
        return Err(CommandRefused::Syntax);
    };
    let first = parse_number(first)?;
    let second = parse_number(second)?;
    Ok((first, second, parse_number(third)?))
}

/// Nothing.
pub fn nothing(words: &[&[u8]]) -> Result<(), CommandRefused>
    ensures ok { IfOk result (λ _. Each [] (texts_of words.now)) }
    ensures syntax { result ≡ Err Syntax → Each [] (texts_of words.now) → ⊥ }
{
    if words.is_empty() {
        Ok(())
    } else {
        Err(CommandRefused::Syntax)
    }
}

// A name, or `null` for none.
fn name_or_null(alloc: Global, word: &[u8]) -> Result<Option<Name>, CommandRefused>
    ensures ok { IfOk result (λ name. NamedOrNull name word.now) }
    ensures syntax { result ≡ Err Syntax → (name : Option (List ℕ))
        → NamedOrNull name word.now → ⊥ }
{
    if word == b"null".as_slice() {
        return Ok(None);
    }
    Ok(Some(Name::parse(alloc, word)?))
}
