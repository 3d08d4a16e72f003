//! A node goes onto a stack.
ghost use Rattle.std.specs.Prelude.{ℕ, ◌≡◌, ◌<◌, ◌∷◌, ◌++◌, [], IfErr, IfOk, OnErr};
ghost use Rattle.cdrc.specs.plain_state.declared.act.EventPlace.TheVariants as place;
ghost use Rattle.cdrc.specs.plain_state.declared.slot.Kind.TheVariants as kind;
ghost use Rattle.cdrc.specs.plain_state.Lists.{times};
ghost use Rattle.cdrc.specs.core_events.Steps.{CanGive, HasRoom, IsContent, without_given};
ghost use Rattle.cdrc.specs.core_events.Views.{without};
ghost use Rattle.cdrc.specs.atomic_shared.Places.{named};
ghost use Rattle.cdrc.specs.control_word.Moves.{KnowsStill};
ghost use Rattle.cdrc.specs.control_word.Resting.{IsAtRest, IsSpent};
ghost use Rattle.cdrc.specs.domain_rule.Views.{object_in, own_of};
ghost use Rattle.example_stack.specs.Deeds.{SawIt};
ghost use Rattle.example_stack.specs.Leaving.{Leaves};
ghost use Rattle.example_stack.specs.Calls.{HasNode, IsWhy, IsWhyLost, pushed_too};

use crate::deeds::{LinkNode, PushNode};
use crate::law::StackLaw;
use crate::seeing::see;
use cdrc::{
    Domain, LoadError, PayloadKind, Place, Seat, SlotId, Strong, held_as, store, try_replace,
};

/// A node that wasn't pushed, and why: the top changed meanwhile, or the seat has no add left of its quota.
#[derive(Debug, Drop)]
pub struct NotPushed {
    pub error: LoadError,
    pub node: Strong,
}

/// Pushes a node of the seat's own, in one try: the node gets the top below it, and becomes the top, if that is still
/// the same. Else the node is handed back; it can be pushed again. At most seven steps, and two collects.
pub fn try_push<K: PayloadKind>(
    domain: &Domain<StackLaw<K>>,
    seat: &mut Seat<StackLaw<K>>,
    cell: u32,
    node: Strong,
) -> Result<(), NotPushed>
    requires rest { IsAtRest domain.now seat.old }
    requires room { HasRoom seat.old.view.core }
    requires cell { cell ≡ domain.now.protocol.cell }
    requires there { cell < domain.now.shape.cells }
    requires node { HasNode K.fits node.slot seat.old }
    ensures pushed { IfOk result (λ done. seat.new.view.client.pushed
        ≡ seat.old.view.client.pushed ++ (object_in seat.old.view node.slot).payload ∷ []) }
    ensures refused { IfErr result (λ not. seat.new.view.client.pushed
        ≡ seat.old.view.client.pushed) }
    ensures why { IfErr result (λ not. IsWhy K.fits domain.now (IsSpent seat.old.view.core)
        not.error seat.old seat.new) }
    ensures gives { IfOk result (λ done.
        Leaves (without node.slot seat.old.view.core.owned) seat.old seat.new) }
    ensures leaves { OnErr result (Leaves seat.old.view.core.owned seat.old seat.new) }
    ensures back { IfErr result (λ not. not.node ≡ node) }
    ensures still { IfErr result (λ not. HasNode K.fits not.node.slot seat.new) }
    ensures popped { seat.new.view.client.popped ≡ seat.old.view.client.popped }
    ensures notes { seat.new.view.core.notes ≡ seat.old.view.core.notes }
    ensures room { HasRoom seat.new.view.core }
    ensures rest { IsAtRest domain.now seat.new }
{
    let top = match see(domain, seat, Place::Cell(cell)) {
        Ok(top) => top,
        Err(error) => return Err(NotPushed { error, node }),
    };
    let expected = slot_of(&top);
    link(domain, seat, node.slot(), top);
    put_on(domain, seat, cell, expected, node)
}

/// The slot that a handle names, if there is one.
fn slot_of(handle: &Option<Strong>) -> Option<SlotId>
    ensures { result ≡ named handle.now }
{
    match handle {
        None => None,
        Some(strong) => Some(strong.slot()),
    }
}

/// Leaves a node, or null, in field 0 of an object of the seat's own.
fn link<K: PayloadKind>(
    domain: &Domain<StackLaw<K>>,
    seat: &mut Seat<StackLaw<K>>,
    node: SlotId,
    below: Option<Strong>,
)
    requires rest { IsAtRest domain.now seat.old }
    requires room { HasRoom seat.old.view.core }
    requires node { 0 < times node seat.old.view.core.owned }
    requires owned { CanGive kind.Strong (named below) seat.old.view.core }
    requires saw { SawIt (own_of seat.old.view) seat.old.view.client (named below) }
    ensures owned { seat.new.view.core.owned
        ≡ (without_given kind.Strong (named below) seat.old.view.core).owned }
    ensures client { seat.new.view.client ≡ seat.old.view.client }
    ensures notes { seat.new.view.core.notes ≡ seat.old.view.core.notes }
    ensures objects { KnowsStill (without_given kind.Strong (named below) seat.old.view.core)
        seat.old seat.new }
    ensures leaves { Leaves (without_given kind.Strong (named below) seat.old.view.core).owned
        seat.old seat.new }
    ensures room { HasRoom seat.new.view.core }
    ensures rest { IsAtRest domain.now seat.new }
{
    store(domain, seat, Place::Field(node, 0), below, LinkNode);
}

/// The node becomes the top, where the top is what is expected.
fn put_on<K: PayloadKind>(
    domain: &Domain<StackLaw<K>>,
    seat: &mut Seat<StackLaw<K>>,
    cell: u32,
    expected: Option<SlotId>,
    node: Strong,
) -> Result<(), NotPushed>
    requires rest { IsAtRest domain.now seat.old }
    requires room { HasRoom seat.old.view.core }
    requires cell { cell ≡ domain.now.protocol.cell }
    requires there { cell < domain.now.shape.cells }
    requires node { HasNode K.fits node.slot seat.old }
    requires expected { IsContent domain.now.shape expected }
    ensures pushed { IfOk result (λ done. seat.new.view.client
        ≡ pushed_too (object_in seat.old.view node.slot).payload seat.old.view.client) }
    ensures refused { IfErr result (λ not. seat.new.view.client ≡ seat.old.view.client) }
    ensures why { IfErr result (λ not. IsWhyLost K.fits domain.now (place.Cell cell) expected
        not.error seat.old seat.new) }
    ensures gives { IfOk result (λ done.
        Leaves (without node.slot seat.old.view.core.owned) seat.old seat.new) }
    ensures leaves { OnErr result (Leaves seat.old.view.core.owned seat.old seat.new) }
    ensures back { IfErr result (λ not. not.node ≡ node) }
    ensures still { IfErr result (λ not. HasNode K.fits not.node.slot seat.new) }
    ensures notes { seat.new.view.core.notes ≡ seat.old.view.core.notes }
    ensures room { HasRoom seat.new.view.core }
    ensures rest { IsAtRest domain.now seat.new }
{
    let lost = match try_replace(
        domain,
        seat,
        Place::Cell(cell),
        expected,
        Some(node),
        PushNode,
    ) {
        Ok(()) => return Ok(()),
        Err(lost) => lost,
    };
    let error = LoadError::Moved {
        seen: held_as(expected),
        now: lost.now,
    };
    let back = lost.back;
    let Some(node) = back else { unreachable!() };
    Err(NotPushed { error, node })
}
