//! The destruction of an object that a seat has ended.
ghost use Rattle.std.specs.Prelude.{◌≡◌, ◌<◌, ◌≤◌, ◌+◌, IfSome, []};
ghost use Rattle.protocol_pairs.specs.plain_state.Lists.{times};
ghost use Rattle.claim_law.specs.core_events.Steps.{HasRoom};
ghost use Rattle.claim_law.specs.core_events.Views.{IsRipeField};
ghost use Rattle.retiring_stores.specs.control_word.Resting.{IsAtRest};
ghost use Rattle.deleter.specs.Weighing.{Weighs};
ghost use Rattle.retiring_stores.specs.domain_rule.Views.{HasCleared};
ghost use Rattle.retiring_stores.specs.acquire_retire.Collecting.{rest_of};
ghost use Rattle.slot_store.specs.Reaping.{Answers, Clears, Destroys, FindsRipe, KnowsBoth, Passes, SeesAll};
ghost use Rattle.slot_store.specs.Spending.{reap_most, steps_made};

use deleter::Deleter;
use protocol_pairs::{Protocol, Still};
use retiring_stores::{Domain, EventPlace, Outcome, Seat, SlotId, collect, exchange};

/// Destroys one ripe slot of those that the seat has ended, and answers the weight of its payload, on which the deleter
/// is called. Where none is ripe the seat collects first. `None` exactly where none is dying, or where none is ripe and
/// each that is dying is announced for disposal. What the fields held is retired.
///
/// At most 21 steps and four collects. A collect reads each announcement word, and takes at most three steps for each
/// entry that it ejects: so for A announcement words and E retired entries a reap takes at most 4·A + 3·(E + 3) + 21
/// steps.
pub fn reap<P: Protocol, F: Fn(&[u64; 16]) -> u64>(
    domain: &Domain<P>,
    seat: &mut Seat<P>,
    deleter: &Deleter<P::Kind, F>,
) -> Option<u64>
    requires rest { IsAtRest domain.now seat.old }
    requires room { HasRoom seat.old.view.core }
    requires weighs { Weighs P.Kind.fits P.Kind.weight F.Fn deleter.now }
    ensures reaps { Answers P.Kind.fits domain.now P.Kind.weight result seat.old seat.new }
    ensures idle { seat.old.view.core.dying ≡ [] → seat.new ≡ seat.old }
    ensures steps { steps_made seat.new ≤ steps_made seat.old + reap_most domain.now seat.old }
    ensures client { seat.new.view.client ≡ seat.old.view.client }
    ensures notes { seat.new.view.core.notes ≡ seat.old.view.core.notes }
    ensures objects { KnowsBoth seat.old seat.new }
    ensures room { HasRoom seat.new.view.core }
    ensures rest { IsAtRest domain.now seat.new }
{
    if domain.next_dying(seat).is_none() {
        return None;
    }
    let Some(slot) = ripe_slot(domain, seat) else {
        return None;
    };
    clear(domain, seat, EventPlace::Field(slot, 0));
    clear(domain, seat, EventPlace::Field(slot, 1));
    clear(domain, seat, EventPlace::WeakField(slot));
    let payload = read_all(domain, seat, slot);
    let weight = deleter.call(&payload);
    destroy(domain, seat, slot);
    Some(weight)
}

/// The first ripe slot. Where none is ripe the seat collects, and some may be ripe then.
fn ripe_slot<P: Protocol>(domain: &Domain<P>, seat: &mut Seat<P>) -> Option<SlotId>
    requires rest { IsAtRest domain.now seat.old }
    requires room { HasRoom seat.old.view.core }
    ensures finds { FindsRipe P.Kind.fits domain.now result seat.old seat.new }
    ensures dying { IfSome result (λ slot. 0 < times slot seat.new.view.core.dying) }
    ensures passes { Passes domain.now seat.old seat.new }
{
    if let Some(slot) = domain.next_ripe(seat) {
        return Some(slot);
    }
    collect(domain, seat);
    domain.next_ripe(seat)
}

/// Leaves a field of a ripe slot null.
fn clear<P: Protocol>(domain: &Domain<P>, seat: &mut Seat<P>, field: EventPlace)
    requires rest { IsAtRest domain.now seat.old }
    requires room { HasRoom seat.old.view.core }
    requires ripe { IsRipeField seat.old.view.core field }
    ensures clears { Clears P.Kind.fits domain.now field seat.old seat.new }
    ensures passes { Passes domain.now seat.old seat.new }
{
    exchange(domain, seat, field, None, Still);
}

/// The payload of a slot that the seat is to destroy, word by word.
fn read_all<P: Protocol>(domain: &Domain<P>, seat: &mut Seat<P>, slot: SlotId) -> [u64; 16]
    requires rest { IsAtRest domain.now seat.old }
    requires room { HasRoom seat.old.view.core }
    requires dying { 0 < times slot seat.old.view.core.dying }
    ensures sees { SeesAll P.Kind.fits domain.now slot result seat.old seat.new }
    ensures passes { Passes domain.now seat.old seat.new }
{
    let mut payload = [0; 16];
    for index in 0..16u32 {
        let Outcome::Word(word) = domain.see(seat, slot, index) else {
            unreachable!()
        };
        payload[index as usize] = word;
    }
    payload
}

/// Destroys a ripe slot whose fields the seat has left null. Where nothing refers to it any more, it is given back.
fn destroy<P: Protocol>(domain: &Domain<P>, seat: &mut Seat<P>, slot: SlotId)
    requires rest { IsAtRest domain.now seat.old }
    requires ripe { 0 < times slot seat.old.view.core.ripe }
    requires cleared { HasCleared seat.old.view slot }
    ensures destroys { Destroys P.Kind.fits domain.now slot seat.old seat.new }
    ensures same { rest_of seat.new.view.core ≡ rest_of seat.old.view.core }
    ensures client { seat.new.view.client ≡ seat.old.view.client }
    ensures retired { seat.new.view.core.retired ≡ seat.old.view.core.retired }
    ensures objects { KnowsBoth seat.old seat.new }
    ensures rest { IsAtRest domain.now seat.new }
{
    if let Outcome::Last = domain.destroy(seat, slot) {
        domain.free(seat);
    }
}
