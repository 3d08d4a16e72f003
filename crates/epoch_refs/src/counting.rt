//! Counted references: one more, one less, and what they refer to.
ghost use Rattle.std.specs.Prelude.{◌≡◌, ◌<◌, ◌↔◌, IfOk, IsErr, slice_index};
ghost use Rattle.epoch_domain.specs.plain_protocol.plain_state.Lists.{times};
ghost use Rattle.epoch_domain.specs.Calls.{IsSameView, Steps, same_view};
ghost use Rattle.epoch_domain.specs.epoch_core.declared.act.EpochAct.TheVariants as act;
ghost use Rattle.epoch_domain.specs.epoch_core.declared.outcome.EpochOutcome.TheVariants as outcome;
ghost use Rattle.epoch_domain.specs.epoch_core.Views.{Holds};
ghost use Rattle.epoch_domain.specs.epoch_rule.Views.{object_in};
ghost use Rattle.epoch_refs.specs.Calls.{IsSpent};
ghost use Rattle.epoch_refs.specs.Walks.{IsAtRest};

use control_word::{Spent, Strong};
use epoch_domain::{EpochDomain, EpochOutcome, EpochSeat, Protocol, SlotId};

/// One more reference to a slot that the seat owns or its region has seen. `Spent` comes exactly where the seat has no
/// add left; nothing has changed then. One event.
pub fn e_keep<P: Protocol>(
    domain: &EpochDomain<P>,
    seat: &mut EpochSeat<P>,
    slot: SlotId,
) -> Result<Strong, Spent>
    requires rest { IsAtRest domain.now seat.old }
    requires held { Holds seat.old.view.core slot }
    ensures spent { IsErr result ↔ IsSpent seat.old.view.core }
    ensures refused { IsErr result → seat.new ≡ seat.old }
    ensures kept { IfOk result (λ strong. (strong.slot ≡ slot)
        × Steps P.Kind.fits domain.now same_view IsSameView (act.Add slot) seat.old seat.new
        outcome.Plain) }
    ensures rest { IsAtRest domain.now seat.new }
{
    if domain.adds_left(seat) == 0 {
        return Err(Spent);
    }
    domain.add(seat, slot);
    Ok(Strong::of(slot))
}

/// One more reference to what the handle refers to. `Spent` comes exactly where the seat has no add left; nothing has
/// changed then. One event.
pub fn e_copy<P: Protocol>(
    domain: &EpochDomain<P>,
    seat: &mut EpochSeat<P>,
    handle: &Strong,
) -> Result<Strong, Spent>
    requires rest { IsAtRest domain.now seat.old }
    requires owned { 0 < times handle.now.slot seat.old.view.core.owned }
    ensures spent { IsErr result ↔ IsSpent seat.old.view.core }
    ensures refused { IsErr result → seat.new ≡ seat.old }
    ensures copied { IfOk result (λ strong. (strong.slot ≡ handle.now.slot)
        × Steps P.Kind.fits domain.now same_view IsSameView (act.Add handle.now.slot) seat.old
        seat.new outcome.Plain) }
    ensures rest { IsAtRest domain.now seat.new }
{
    e_keep(domain, seat, handle.slot())
}

/// Gives up a reference. Where it was the last one the object has ended, and the seat destroys it at its next flush.
/// One event.
pub fn e_drop<P: Protocol>(domain: &EpochDomain<P>, seat: &mut EpochSeat<P>, handle: Strong)
    requires rest { IsAtRest domain.now seat.old }
    requires owned { 0 < times handle.slot seat.old.view.core.owned }
    ensures dropped { (answer : EpochOutcome) × Steps P.Kind.fits domain.now same_view IsSameView
        (act.Drop handle.slot) seat.old seat.new answer }
    ensures rest { IsAtRest domain.now seat.new }
{
    domain.drop(seat, handle.slot());
}

/// A payload word, 0 to 15, of an object that the seat owns or its region has seen: the word that the object was made
/// with. One event.
pub fn e_read<P: Protocol>(
    domain: &EpochDomain<P>,
    seat: &mut EpochSeat<P>,
    slot: SlotId,
    word: u32,
) -> u64
    requires rest { IsAtRest domain.now seat.old }
    requires held { Holds seat.old.view.core slot }
    requires word { word < 16 }
    ensures read { Steps P.Kind.fits domain.now same_view IsSameView (act.See slot word) seat.old
        seat.new (outcome.Word result) }
    ensures made { result ≡ slice_index (object_in seat.new.view slot).payload word }
    ensures rest { IsAtRest domain.now seat.new }
{
    let EpochOutcome::Word(found) = domain.see(seat, slot, word) else {
        unreachable!()
    };
    found
}
