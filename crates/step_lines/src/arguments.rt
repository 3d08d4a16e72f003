//! What one word spells.
ghost use Rattle.std.specs.Prelude.{◌≡◌};
ghost use Rattle.step_lines.specs.Beyond.{
  IsBeyondContent,
  IsBeyondPlace,
  IsBeyondSlot,
  IsTooLarge,
  IsTooLargeValue,
};
ghost use Rattle.step_lines.specs.Reading.{Reads};
ghost use Rattle.step_lines.specs.Spelling.{Content, KindWord, Number, Place, Slot};

use crate::refused::EventRefused;
use core_events::{EventPlace, Kind, SlotId};
use line_words::number;

/// A number below 2^32.
pub fn parse_number(word: &[u8]) -> Result<u32, EventRefused>
    ensures { Reads (λ n. Number n word.now) IsTooLarge result }
{
    match number(word) {
        None => Err(EventRefused::Syntax),
        Some(value) => u32::try_from(value).or(Err(EventRefused::Range)),
    }
}

/// A number below 2^64.
pub fn parse_value(word: &[u8]) -> Result<u64, EventRefused>
    ensures { Reads (λ n. Number n word.now) IsTooLargeValue result }
{
    match number(word) {
        None => Err(EventRefused::Syntax),
        Some(value) => u64::try_from(value).or(Err(EventRefused::Range)),
    }
}

/// A slot, by its number.
pub fn parse_slot(word: &[u8]) -> Result<SlotId, EventRefused>
    ensures { Reads (λ s. Slot s word.now) IsBeyondSlot result }
{
    parse_number(word).map(SlotId)
}

/// `strong`, `weak` or `disposal`.
pub fn parse_kind(word: &[u8]) -> Result<Kind, EventRefused>
    ensures { Reads (λ k. KindWord k word.now) (λ k. ⊥) result }
{
    match word {
        b"strong" => Ok(Kind::Strong),
        b"weak" => Ok(Kind::Weak),
        b"disposal" => Ok(Kind::Disposal),
        _ => Err(EventRefused::Syntax),
    }
}

/// A slot, or `null`.
pub fn parse_content(word: &[u8]) -> Result<Option<SlotId>, EventRefused>
    ensures { Reads (λ x. Content x word.now) IsBeyondContent result }
{
    if word == b"null".as_slice() {
        return Ok(None);
    }
    parse_slot(word).map(Some)
}

/// A cell, or a field of a slot.
pub fn parse_place(word: &[u8]) -> Result<EventPlace, EventRefused>
    ensures { Reads (λ p. Place p word.now) IsBeyondPlace result }
{
    if let Some(index) = word.strip_prefix(b"@") {
        return parse_number(index).map(EventPlace::Cell);
    }
    if let Some(index) = word.strip_prefix(b"~") {
        return parse_number(index).map(EventPlace::WeakCell);
    }
    if let Some(slot) = word.strip_suffix(b":0") {
        return Ok(EventPlace::Field(parse_slot(slot)?, 0));
    }
    if let Some(slot) = word.strip_suffix(b":1") {
        return Ok(EventPlace::Field(parse_slot(slot)?, 1));
    }
    if let Some(slot) = word.strip_suffix(b":w") {
        return parse_slot(slot).map(EventPlace::WeakField);
    }
    Err(EventRefused::Syntax)
}
