//! A node is taken off a stack.
ghost use Rattle.std.specs.Prelude.{◌≡◌, ◌<◌, ◌∷◌, ◌++◌, [], IfErr, IfOk, OnErr, Some};
ghost use Rattle.cdrc.specs.plain_state.declared.act.EventPlace.TheVariants as place;
ghost use Rattle.cdrc.specs.plain_state.declared.slot.Kind.TheVariants as kind;
ghost use Rattle.cdrc.specs.core_events.Steps.{CanGive, HasRoom, without_given};
ghost use Rattle.cdrc.specs.core_events.Words.{slot_in};
ghost use Rattle.cdrc.specs.atomic_shared.Places.{named};
ghost use Rattle.cdrc.specs.control_word.Moves.{KnowsStill};
ghost use Rattle.cdrc.specs.control_word.Resting.{IsAtRest};
ghost use Rattle.cdrc.specs.domain_rule.Views.{object_in, own_of};
ghost use Rattle.example_stack.specs.Deeds.{SawIt};
ghost use Rattle.example_stack.specs.Leaving.{Leaves, found_by, with_found};
ghost use Rattle.example_stack.specs.Calls.{HasFewAdds, HasNode, IsNullAt, IsWhy, LosesAt, Pops, popped_too};

use crate::deeds::PopNode;
use crate::law::StackLaw;
use crate::seeing::{give_up, see};
use cdrc::{
    Domain, LoadError, Lost, PayloadKind, Place, Seat, SlotId, Strong, drop_strong, held_as,
    try_replace,
};

/// Takes the top off the stack, in one try: what is below it becomes the top, if that is still the same. `None` where
/// the stack was found empty. Where a place of the stack changed meanwhile, or the seat has no add left of its quota,
/// nothing is taken. At most 18 steps, and a collect.
pub fn try_pop<K: PayloadKind>(
    domain: &Domain<StackLaw<K>>,
    seat: &mut Seat<StackLaw<K>>,
    cell: u32,
) -> Result<Option<Strong>, LoadError>
    requires rest { IsAtRest domain.now seat.old }
    requires room { HasRoom seat.old.view.core }
    requires cell { cell ≡ domain.now.protocol.cell }
    requires there { cell < domain.now.shape.cells }
    ensures popped { IfOk result (λ found. Pops K.fits (named found) seat.old seat.new) }
    ensures empty { IfOk result (λ found. IsNullAt K.fits domain.now
        (place.Cell domain.now.protocol.cell) (named found) seat.old seat.new) }
    ensures notes { seat.new.view.core.notes ≡ seat.old.view.core.notes }
    ensures why { IfErr result (λ error. IsWhy K.fits domain.now
        (HasFewAdds seat.old.view.core) error seat.old seat.new) }
    ensures leaves { Leaves (with_found (found_by result) seat.old.view.core.owned)
        seat.old seat.new }
    ensures refused { OnErr result (seat.new.view.client.popped ≡ seat.old.view.client.popped) }
    ensures pushed { seat.new.view.client.pushed ≡ seat.old.view.client.pushed }
    ensures room { HasRoom seat.new.view.core }
    ensures rest { IsAtRest domain.now seat.new }
{
    let Some(top) = see(domain, seat, Place::Cell(cell))? else {
        return Ok(None);
    };
    let below = match see(domain, seat, Place::Field(top.slot(), 0)) {
        Ok(below) => below,
        Err(error) => {
            drop_strong(domain, seat, top);
            return Err(error);
        }
    };
    match take_top(domain, seat, cell, top.slot(), below) {
        Ok(()) => Ok(Some(top)),
        Err(lost) => {
            let error = LoadError::Moved {
                seen: held_as(Some(top.slot())),
                now: lost.now,
            };
            give_up(domain, seat, lost.back);
            drop_strong(domain, seat, top);
            Err(error)
        }
    }
}

/// What is below the top becomes the top, where that is this node.
fn take_top<K: PayloadKind>(
    domain: &Domain<StackLaw<K>>,
    seat: &mut Seat<StackLaw<K>>,
    cell: u32,
    top: SlotId,
    below: Option<Strong>,
) -> Result<(), Lost>
    requires rest { IsAtRest domain.now seat.old }
    requires room { HasRoom seat.old.view.core }
    requires cell { cell ≡ domain.now.protocol.cell }
    requires there { cell < domain.now.shape.cells }
    requires top { HasNode K.fits top seat.old }
    requires slot { top.0 < domain.now.shape.slots }
    requires owned { CanGive kind.Strong (named below) seat.old.view.core }
    requires saw { SawIt (own_of seat.old.view) seat.old.view.client (named below) }
    ensures popped { IfOk result (λ done. seat.new.view.client
        ≡ popped_too (object_in seat.old.view top).payload seat.old.view.client) }
    ensures given { IfOk result (λ done. seat.new.view.core.owned
        ≡ (without_given kind.Strong (named below) seat.old.view.core).owned) }
    ensures refused { IfErr result (λ lost. seat.new.view.client ≡ seat.old.view.client) }
    ensures owned { IfErr result (λ lost. seat.new.view.core.owned ≡ seat.old.view.core.owned) }
    ensures why { IfErr result (λ lost. LosesAt K.fits domain.now (place.Cell cell) (Some top)
        (slot_in lost.now) seat.old seat.new) }
    ensures gives { IfOk result (λ done.
        Leaves (without_given kind.Strong (named below) seat.old.view.core).owned
        seat.old seat.new) }
    ensures leaves { OnErr result (Leaves seat.old.view.core.owned seat.old seat.new) }
    ensures back { IfErr result (λ lost. lost.back ≡ below) }
    ensures notes { seat.new.view.core.notes ≡ seat.old.view.core.notes }
    ensures objects { KnowsStill (without_given kind.Strong (named below) seat.old.view.core)
        seat.old seat.new }
    ensures room { HasRoom seat.new.view.core }
    ensures rest { IsAtRest domain.now seat.new }
{
    try_replace(domain, seat, Place::Cell(cell), Some(top), below, PopNode)
}
