//! Words that an act finds, and what they say.
ghost use Rattle.std.specs.Prelude.{◌≡◌, ◌==◌, ◌<◌, ◌≤◌, ◌+◌, ◌^◌};
ghost use Rattle.core_events.specs.plain_state.Steps.{word_of};
ghost use Rattle.core_events.specs.Words.{slot_in, bit_alone, bit_in};
ghost use Rattle.core_events.specs.announce_slots.Words.{code};
ghost use Rattle.core_events.specs.counter_word.Words.{has_help, value};

use core_events::SlotId;

/// The slot that the word of a place holds.
pub fn found_in(word: u64) -> Option<SlotId>
    requires { word < 2 ^ 32 }
    ensures { result ≡ slot_in word }
{
    if word == 0 {
        None
    } else {
        Some(SlotId((word - 1) as u32))
    }
}

/// The word of a place with this content.
pub fn held_as(content: Option<SlotId>) -> u64
    ensures { result ≡ word_of content }
{
    match content {
        None => 0,
        Some(slot) => u64::from(slot.0) + 1,
    }
}

/// A word in which the bit of the slot stands alone.
pub fn bit_alone(slot: SlotId) -> u64
    ensures { result ≡ bit_alone slot }
{
    1 << (slot.0 % 64)
}

/// Whether the bit of the slot is set in its word.
pub fn has_bit(word: u64, slot: SlotId) -> bool
    ensures { result ≡ (bit_in slot word == 1) }
{
    word >> (slot.0 % 64) & 1 == 1
}
