//! What a phase is about, and where a decrement leads.
ghost use Rattle.std.specs.Prelude.{◌≡◌, ◌↔◌, IsTrue};
ghost use Rattle.core_events.specs.plain_state.declared.slot.SlotId.{SlotId};
ghost use Rattle.core_events.specs.declared.view.Phase.TheVariants as variant;
ghost use Rattle.core_events.specs.Steps.{decremented};
ghost use Rattle.core_events.specs.Views.{slot_of};
ghost use Rattle.core_functions.specs.Phases.{phase_after};

use core_events::{Kind, Outcome, Phase, SlotId};

/// The slot of a phase that has one.
pub fn slot_in_phase(phase: Phase) -> Option<SlotId>
    ensures { result ≡ slot_of phase }
{
    match phase {
        Phase::Idle | Phase::Scan => None,
        Phase::Finish(slot)
        | Phase::Help(slot)
        | Phase::Zero(slot)
        | Phase::Bare(slot)
        | Phase::Blank(slot)
        | Phase::Give(slot) => Some(slot),
    }
}

/// What a decrement of a counter word came to: the one that found 1 is to finish the object, or to give the slot back.
pub fn given_up(kind: Kind, slot: SlotId, word: u64) -> (Phase, Outcome)
    ensures phase { result.0 ≡ phase_after kind slot word }
    ensures told { result.1 ≡ decremented kind word }
{
    if word != 1 {
        return (Phase::Idle, Outcome::Left);
    }
    match kind {
        Kind::Strong => (Phase::Finish(slot), Outcome::Zeroed),
        Kind::Weak => (Phase::Give(slot), Outcome::Last),
        Kind::Disposal => (Phase::Idle, Outcome::Left),
    }
}

/// Whether the seat is to finish an object: it found its count at 0.
pub fn is_finishing(phase: Phase) -> bool
    ensures { IsTrue result ↔ ((s : SlotId) × (phase ≡ variant.Finish s)) }
{
    matches!(phase, Phase::Finish(_))
}

/// Whether the seat is to take a help flag.
pub fn is_helping(phase: Phase) -> bool
    ensures { IsTrue result ↔ ((s : SlotId) × (phase ≡ variant.Help s)) }
{
    matches!(phase, Phase::Help(_))
}

/// Whether the seat read a count of 0 and is to mark it.
pub fn is_marking(phase: Phase) -> bool
    ensures { IsTrue result ↔ ((s : SlotId) × (phase ≡ variant.Zero s)) }
{
    matches!(phase, Phase::Zero(_))
}

/// Whether the seat has claimed a slot and is to arm it.
pub fn is_arming(phase: Phase) -> bool
    ensures { IsTrue result ↔ ((s : SlotId) × (phase ≡ variant.Bare s)) }
{
    matches!(phase, Phase::Bare(_))
}

/// Whether the seat has armed a slot and fills it.
pub fn is_filling(phase: Phase) -> bool
    ensures { IsTrue result ↔ ((s : SlotId) × (phase ≡ variant.Blank s)) }
{
    matches!(phase, Phase::Blank(_))
}

/// Whether the seat is to give a slot back.
pub fn is_giving(phase: Phase) -> bool
    ensures { IsTrue result ↔ ((s : SlotId) × (phase ≡ variant.Give s)) }
{
    matches!(phase, Phase::Give(_))
}
