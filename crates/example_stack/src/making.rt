//! A new node.
ghost use Rattle.std.specs.Prelude.{◌≡◌, ◌<◌, ◌++◌, ◌∷◌, ◌↔◌, [], Err, IfOk, OnErr};
ghost use Rattle.cdrc.specs.core_events.Steps.{HasRoom};
ghost use Rattle.cdrc.specs.control_word.Resting.{IsAtRest, IsSpent};
ghost use Rattle.cdrc.specs.claim_law.Claims.{makes_given};
ghost use Rattle.cdrc.specs.control_word.Moves.{KnowsStill};
ghost use Rattle.cdrc.specs.slot_store.Calls.{HasNoMake, Makes};
ghost use Rattle.cdrc.specs.slot_store.Searching.{Misses};
ghost use Rattle.cdrc.specs.slot_store.declared.making.MakeError.TheVariants as refused;
ghost use Rattle.example_stack.specs.Deeds.{TellsNothing, same_next};
ghost use Rattle.example_stack.specs.Calls.{HasNode};
ghost use Rattle.cdrc.specs.domain_rule.Views.{object_in};

use crate::deeds::MakeNode;
use crate::law::StackLaw;
use cdrc::{Domain, MakeError, PayloadKind, Seat, Strong, make};

/// Makes a node of a value, which isn't in the stack yet. It is refused as `slot_store::make` is, and then nothing has
/// changed but the seat's trail.
pub fn make_node<K: PayloadKind>(
    domain: &Domain<StackLaw<K>>,
    seat: &mut Seat<StackLaw<K>>,
    value: &[u64; 16],
) -> Result<Strong, MakeError>
    requires rest { IsAtRest domain.now seat.old }
    requires room { HasRoom seat.old.view.core }
    requires fits { K.fits value.now }
    ensures made { IfOk result (λ node. HasNode K.fits node.slot seat.new) }
    ensures value { IfOk result (λ node. (object_in seat.new.view node.slot).payload ≡ value.now) }
    ensures makes_spent { (result ≡ Err refused.MakesSpent) ↔ HasNoMake seat.old.view.core }
    ensures adds_spent { (result ≡ Err refused.AddsSpent)
        ↔ ((HasNoMake seat.old.view.core → ⊥) × IsSpent seat.old.view.core) }
    ensures no_make { result ≡ Err refused.MakesSpent → seat.new ≡ seat.old }
    ensures no_add { result ≡ Err refused.AddsSpent → seat.new ≡ seat.old }
    ensures full { result ≡ Err refused.Full → Misses K.fits domain.now seat.old seat.new }
    ensures full_only { result ≡ Err refused.Full
        → domain.now.shape.slots < makes_given domain.now.terms }
    ensures makes { IfOk result (λ node. Makes K.fits domain.now same_next TellsNothing value.now
        node.slot seat.old seat.new) }
    ensures owned { IfOk result (λ node. seat.new.view.core.owned
        ≡ seat.old.view.core.owned ++ node.slot ∷ []) }
    ensures still { OnErr result (seat.new.view.core.owned ≡ seat.old.view.core.owned) }
    ensures notes { seat.new.view.core.notes ≡ seat.old.view.core.notes }
    ensures objects { KnowsStill seat.old.view.core seat.old seat.new }
    ensures client { seat.new.view.client ≡ seat.old.view.client }
    ensures room { HasRoom seat.new.view.core }
    ensures rest { IsAtRest domain.now seat.new }
{
    make(domain, seat, value, MakeNode)
}
