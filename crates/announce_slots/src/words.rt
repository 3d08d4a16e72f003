//! The word of a kind and a slot.
ghost use Rattle.std.specs.Prelude.{◌≡◌, ◌≤◌, ◌<◌, ◌^◌, ◌↔◌, ℕ, IsNone, Some};
ghost use Rattle.plain_state.specs.Limits.{most_slots};
ghost use Rattle.announce_slots.specs.Words.{announcement, Announces, code};

use plain_state::{Kind, MOST_SLOTS, SlotId};

/// The kinds: 0 strong, 1 weak, 2 disposal.
const KINDS: u64 = 3;

/// The announcement word of a kind (0 strong, 1 weak, 2 disposal) and a slot: four times the slot's number and one,
/// and the kind. It is never 0, the word that announces nothing.
pub fn encode(kind: u8, slot: u32) -> u64
    requires kind_in_range { kind ≤ 2 }
    requires slot_in_range { slot < most_slots }
    ensures { result ≡ announcement kind slot }
{
    4 * (u64::from(slot) + 1) + u64::from(kind)
}

/// The kind and the slot that a word announces. None exactly where no kind up to 2 and no slot below 2^22 have
/// this word, as for 0.
pub fn decode(word: u64) -> Option<(u8, u32)>
    ensures inverse { (kind slot : ℕ) → (result ≡ Some (kind, slot)) ↔ Announces word kind slot }
    ensures none { IsNone result ↔ ((kind slot : ℕ) → ¬ (Announces word kind slot)) }
{
    let kind = word % 4;
    let place = word / 4;
    if kind >= KINDS || place == 0 || place > u64::from(MOST_SLOTS) {
        return None;
    }
    Some((kind as u8, (place - 1) as u32))
}

/// The announcement word of a reference: that of its kind and its slot.
pub fn announced_as(kind: Kind, slot: SlotId) -> u64
    ensures { result ≡ code kind slot }
{
    let number = match kind {
        Kind::Strong => 0,
        Kind::Weak => 1,
        Kind::Disposal => 2,
    };
    4 * (u64::from(slot.0) + 1) + number
}
