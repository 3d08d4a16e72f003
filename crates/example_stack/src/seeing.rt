//! What a seat sees in a stack, and what it gives up of that.
ghost use Rattle.std.specs.Prelude.{◌≡◌, IfErr, IfOk, OnErr};
ghost use Rattle.cdrc.specs.plain_state.declared.slot.Kind.TheVariants as kind;
ghost use Rattle.cdrc.specs.core_events.Steps.{CanGive, HasRoom, without_given};
ghost use Rattle.cdrc.specs.atomic_shared.Loading.{CanLoad};
ghost use Rattle.cdrc.specs.atomic_shared.Places.{named, strong_place};
ghost use Rattle.cdrc.specs.control_word.Moves.{KnowsStill};
ghost use Rattle.cdrc.specs.control_word.Resting.{IsAtRest, IsSpent};
ghost use Rattle.cdrc.specs.protected_loads.References.{Loads};
ghost use Rattle.example_stack.specs.Deeds.{SeeTells, see_next};
ghost use Rattle.example_stack.specs.Leaving.{Leaves, with_found};
ghost use Rattle.example_stack.specs.Calls.{IsNullAt, IsPlaceOf, IsWhy, Sees};

use crate::deeds::SeeNode;
use crate::law::StackLaw;
use cdrc::{Domain, LoadError, PayloadKind, Place, Seat, Strong, drop_strong, try_load};

/// A reference to what the stack has in a place: its top, or what is below a node.
pub(crate) fn see<K: PayloadKind>(
    domain: &Domain<StackLaw<K>>,
    seat: &mut Seat<StackLaw<K>>,
    place: Place,
) -> Result<Option<Strong>, LoadError>
    requires rest { IsAtRest domain.now seat.old }
    requires room { HasRoom seat.old.view.core }
    requires place { CanLoad domain.now.shape seat.old.view.core place }
    requires stack { IsPlaceOf domain.now.protocol.cell K.fits seat.old place }
    ensures saw { IfOk result (λ found. Sees K.fits domain.now (named found) seat.old seat.new) }
    ensures loads { IfOk result (λ found. Loads K.fits domain.now (strong_place place) see_next
        (SeeTells K.fits) (named found) seat.old seat.new) }
    ensures null { IfOk result (λ found. IsNullAt K.fits domain.now (strong_place place)
        (named found) seat.old seat.new) }
    ensures notes { seat.new.view.core.notes ≡ seat.old.view.core.notes }
    ensures why { IfErr result (λ error. IsWhy K.fits domain.now (IsSpent seat.old.view.core)
        error seat.old seat.new) }
    ensures gains { IfOk result (λ found.
        Leaves (with_found (named found) seat.old.view.core.owned) seat.old seat.new) }
    ensures leaves { OnErr result (Leaves seat.old.view.core.owned seat.old seat.new) }
    ensures owned { OnErr result (seat.new.view.core.owned ≡ seat.old.view.core.owned) }
    ensures pushed { seat.new.view.client.pushed ≡ seat.old.view.client.pushed }
    ensures popped { seat.new.view.client.popped ≡ seat.old.view.client.popped }
    ensures objects { KnowsStill seat.old.view.core seat.old seat.new }
    ensures room { HasRoom seat.new.view.core }
    ensures rest { IsAtRest domain.now seat.new }
{
    try_load(domain, seat, place, SeeNode)
}

/// Gives up a reference, if there is one.
pub(crate) fn give_up<K: PayloadKind>(
    domain: &Domain<StackLaw<K>>,
    seat: &mut Seat<StackLaw<K>>,
    handle: Option<Strong>,
)
    requires rest { IsAtRest domain.now seat.old }
    requires room { HasRoom seat.old.view.core }
    requires owned { CanGive kind.Strong (named handle) seat.old.view.core }
    ensures owned { seat.new.view.core.owned
        ≡ (without_given kind.Strong (named handle) seat.old.view.core).owned }
    ensures leaves { Leaves (without_given kind.Strong (named handle) seat.old.view.core).owned
        seat.old seat.new }
    ensures client { seat.new.view.client ≡ seat.old.view.client }
    ensures notes { seat.new.view.core.notes ≡ seat.old.view.core.notes }
    ensures room { HasRoom seat.new.view.core }
    ensures rest { IsAtRest domain.now seat.new }
{
    if let Some(strong) = handle {
        drop_strong(domain, seat, strong);
    }
}
