//! What holds of the whole state where a seat is alone, and what a store of that seat leaves of it.
ghost use Rattle.std.specs.Prelude.{◌≡◌, ◌<◌, ℕ, [], None, IsSome};
ghost use Rattle.epoch_refs.specs.plain_protocol.plain_state.declared.act.EventPlace.TheVariants.{Cell};
ghost use Rattle.epoch_refs.specs.plain_protocol.plain_state.declared.image.Heap.{Heap};
ghost use Rattle.epoch_refs.specs.plain_protocol.plain_state.declared.slot.SlotId.{SlotId};
ghost use Rattle.epoch_refs.specs.plain_protocol.plain_state.Images.{IsImage, slot_image};
ghost use Rattle.epoch_refs.specs.plain_protocol.plain_state.Lawful.{Lawful};
ghost use Rattle.epoch_refs.specs.plain_protocol.plain_state.References.{strong_refs};
ghost use Rattle.epoch_refs.specs.plain_protocol.plain_state.State.{Plain};
ghost use Rattle.epoch_refs.specs.epoch_core.declared.act.EpochAct.TheVariants as act;
ghost use Rattle.epoch_refs.specs.epoch_core.Steps.{CanLeave};
ghost use Rattle.epoch_refs.specs.epoch_domain.Domains.{DomainState};
ghost use Rattle.epoch_refs.specs.epoch_domain.Seats.{SeatState};
ghost use Rattle.epoch_refs.specs.epoch_domain.Wholes.{IsWholeImage};
ghost use Rattle.epoch_refs.specs.epoch_rule.declared.view.EpochSeatView.{EpochSeatView};
ghost use Rattle.epoch_refs.specs.epoch_rule.Views.{own_of};
ghost use Rattle.epoch_refs.specs.Exchanges.{IsStored};
ghost use Rattle.epoch_alone.specs.Cells.{ClearsCell};
ghost use Rattle.epoch_alone.specs.Lone.{IsLoneState};
ghost use Rattle.epoch_alone.specs.Settled.{IsSettled};

use epoch_refs::{Deed, Protocol};

/// The whole state is settled where a seat is alone in it that is in the middle of nothing, in no region, and has
/// nothing pending and nothing to destroy. What is owned there is what that seat owns. An image that the seat takes is
/// one of that state.
pub fn lone_states_are_settled<P: Protocol>()
    ensures settled { (d : DomainState P) (v : EpochSeatView P.View) (p : Plain)
        → IsLoneState P.Kind.fits d v p → CanLeave v.core → v.core.pending ≡ []
        → v.core.dying ≡ [] → IsSettled p v.core.owned }
    ensures image { (d : DomainState P) (v : EpochSeatView P.View) (p : Plain) (heap : Heap)
        → IsLoneState P.Kind.fits d v p → IsWholeImage P.Kind.fits v heap → IsImage p heap }
{}

/// In an image of a lawful state the strong word of a slot to which there are references is their number.
pub fn images_count_references()
    ensures { (p : Plain) (heap : Heap) (s : SlotId) → Lawful p → IsImage p heap
        → 0 < strong_refs p s → (slot_image heap.slots.items s).strong ≡ strong_refs p s }
{}

/// Where a seat that knows the whole state stores null into a cell, that cell is null in the whole state that it knows
/// then, and every other cell holds what it held.
pub fn stores_clear_one_cell<P: Protocol, D: Deed<P>>()
    ensures { (d : DomainState P) (deed : D) (i : ℕ) (old new : SeatState P.View)
        → IsStored P.Kind.fits d (D.next deed d.protocol) (D.allows deed d.protocol)
        (act.Swap (Cell i) None) old new → IsSome (own_of old.view).whole
        → ClearsCell i old new }
{}
