//! The third part of a flush: what has ended is destroyed.
ghost use Rattle.std.specs.Prelude.{◌≡◌, ◌<◌, ◌≤◌, ◌+◌, ◌*◌, ◌-◌, ◌^◌, ◌∷◌, ℕ, List, length, min};
ghost use Rattle.slot_store.specs.deleter.Weighing.{Weighs};
ghost use Rattle.epoch_domain.specs.plain_protocol.plain_state.Lists.{times};
ghost use Rattle.epoch_domain.specs.plain_protocol.plain_state.declared.act.EventPlace.TheVariants.{Field};
ghost use Rattle.epoch_domain.specs.plain_protocol.plain_state.declared.slot.SlotId.{SlotId};
ghost use Rattle.epoch_domain.specs.epoch_core.core_events.Views.{without};
ghost use Rattle.epoch_domain.specs.epoch_rule.Views.{object_in};
ghost use Rattle.epoch_refs.specs.Dying.{Leaves};
ghost use Rattle.epoch_refs.specs.Flushing.{Clears, Destroys, DestroysEach, IsFlushing, seen_by, weights};
ghost use Rattle.epoch_refs.specs.Walks.{IsAtRest, Walks};

use crate::exchanges::date_taken;
use epoch_domain::{EpochDomain, EpochOutcome, EpochSeat, Protocol, SlotId};
use slot_store::Deleter;

/// Leaves a field of a slot that the seat has ended null. Two events, or one where it was null.
fn clear_field<P: Protocol>(
    domain: &EpochDomain<P>,
    seat: &mut EpochSeat<P>,
    slot: SlotId,
    field: u32,
)
    requires rest { IsAtRest domain.now seat.old }
    requires ended { 0 < times slot seat.old.view.core.dying }
    requires field { field < 2 }
    requires room { 0 < seat.old.room }
    ensures clears { Clears P.Kind.fits domain.now slot field seat.old seat.new }
    ensures cleared { seat.new.view.cleared ≡ Field slot field ∷ seat.old.view.cleared }
    ensures leaves { Leaves domain.now slot 1 seat.old seat.new }
{
    let EpochOutcome::Found(held) = domain.clear(seat, slot, field) else {
        unreachable!()
    };
    date_taken(domain, seat, held);
}

/// The payload of a slot that the seat has ended, word by word.
fn see_all<P: Protocol>(domain: &EpochDomain<P>, seat: &mut EpochSeat<P>, slot: SlotId) -> [u64; 16]
    requires rest { IsAtRest domain.now seat.old }
    requires ended { 0 < times slot seat.old.view.core.dying }
    ensures sees { Walks P.Kind.fits domain.now (seen_by slot result) seat.old seat.new }
    ensures known { result ≡ (object_in seat.old.view slot).payload }
    ensures fits { P.Kind.fits result }
    ensures cleared { seat.new.view.cleared ≡ seat.old.view.cleared }
    ensures leaves { Leaves domain.now slot 0 seat.old seat.new }
{
    let mut payload = [0; 16];
    for index in 0..16u32 {
        let EpochOutcome::Word(word) = domain.see(seat, slot, index) else {
            unreachable!()
        };
        payload[index as usize] = word;
    }
    payload
}

/// Destroys the object in a slot that the seat has ended, and answers its weight. 19 to 21 events.
fn destroy<P: Protocol, F: Fn(&[u64; 16]) -> u64>(
    domain: &EpochDomain<P>,
    seat: &mut EpochSeat<P>,
    deleter: &Deleter<P::Kind, F>,
    slot: SlotId,
) -> u64
    requires rest { IsAtRest domain.now seat.old }
    requires ended { 0 < times slot seat.old.view.core.dying }
    requires room { 2 ≤ seat.old.room }
    requires weighs { Weighs P.Kind.fits P.Kind.weight F.Fn deleter.now }
    ensures destroys { Destroys P.Kind.fits domain.now P.Kind.weight result slot seat.old
        seat.new }
    ensures core { IsFlushing seat.old.view.core seat.new.view.core }
    ensures known { seat.new.view.core.known ≡ seat.old.view.core.known }
    ensures dying { seat.new.view.core.dying ≡ without slot seat.old.view.core.dying }
    ensures room { seat.old.room ≤ seat.new.room + 2 }
    ensures rest { IsAtRest domain.now seat.new }
{
    clear_field(domain, seat, slot, 0);
    clear_field(domain, seat, slot, 1);
    let payload = see_all(domain, seat, slot);
    let weight = deleter.call(&payload);
    domain.free(seat, slot);
    weight
}

/// Destroys all objects that the seat has ended, and answers their weights together, where these are less than 2^64.
pub(crate) fn destroy_all<P: Protocol, F: Fn(&[u64; 16]) -> u64>(
    domain: &EpochDomain<P>,
    seat: &mut EpochSeat<P>,
    deleter: &Deleter<P::Kind, F>,
) -> u64
    requires rest { IsAtRest domain.now seat.old }
    requires room { 2 * length seat.old.view.core.dying ≤ seat.old.room }
    requires weighs { Weighs P.Kind.fits P.Kind.weight F.Fn deleter.now }
    ensures destroys { (ended : List (SlotId × ℕ)) × (result ≡ min (weights ended) (2 ^ 64 - 1))
        × DestroysEach P.Kind.fits domain.now P.Kind.weight ended seat.old seat.new }
    ensures core { IsFlushing seat.old.view.core seat.new.view.core }
    ensures known { seat.new.view.core.known ≡ seat.old.view.core.known }
    ensures none { length seat.new.view.core.dying ≡ 0 }
    ensures rest { IsAtRest domain.now seat.new }
{
    let mut weight: u64 = 0;
    while let Some(slot) = domain.first_ended(seat) {
        weight = weight.saturating_add(destroy(domain, seat, deleter, slot));
    }
    weight
}
