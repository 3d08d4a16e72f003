//! The audit of a domain, by the words of what isn't free.
ghost use Rattle.std.specs.Prelude.{◌≡◌, ◌<◌, [], All, IfOk, OnOk, length, map, slice_index};
ghost use Rattle.slot_store.specs.deleter.Weighing.{Weighs};
ghost use Rattle.protected_loads.specs.core_events.Steps.{HasRoom};
ghost use Rattle.protected_loads.specs.domain_rule.Views.{IsAlone, own_of};
ghost use Rattle.protected_loads.specs.control_word.Moves.{KnowsStill};
ghost use Rattle.protected_loads.specs.control_word.Resting.{IsAtRest};
ghost use Rattle.domain_audit.specs.Audits.{IsWholeAudit, KnowsLone, Stays, numbers};

use plain_audit::{Audit, Heap};
use protected_loads::{Domain, Kind, OutOfMemory, Protocol, Seat, SlotId, empty_image};
use slot_store::Deleter;
use std::alloc::Global;
use taken_audit::audit_taken;

/// A seat that is alone learns that the core which it knows is one that events reach. A step tells that, and an image
/// doesn't; and this is a step that every seat at rest may make, whatever the domain has: it announces a slot, and
/// takes that back.
fn learn<P: Protocol>(domain: &Domain<P>, seat: &mut Seat<P>)
    requires rest { IsAtRest domain.now seat.old }
    requires alone { IsAlone seat.old.view }
    ensures stays { Stays P.Kind.fits domain.now seat.old seat.new }
    ensures client { seat.new.view.client ≡ seat.old.view.client }
    ensures objects { KnowsStill seat.old.view.core seat.old seat.new }
    ensures whole { (own_of seat.new.view).whole ≡ (own_of seat.old.view).whole }
    ensures knows { KnowsLone P.Kind.fits domain.now seat.new }
    ensures alone { IsAlone seat.new.view }
    ensures rest { IsAtRest domain.now seat.new }
{
    // The question tells that a seat which is alone knows the whole core.
    let _alone = domain.alone(seat);
    let slot = domain.search_start(seat);
    domain.announce(seat, 0, Kind::Strong, slot);
    domain.release(seat, 0);
}

/// Memory for audits: what an earlier one took serves a later one.
#[derive(Drop)]
pub struct AuditRoom {
    /// The slots that weren't free.
    taken: Vec<SlotId>,
    /// Their words, and those of the cells.
    words: Heap,
    /// Their ranks.
    rank: Vec<u64>,
}

impl AuditRoom {
    /// No memory yet.
    pub fn empty(alloc: Global) -> AuditRoom {
        AuditRoom {
            taken: Vec::new(alloc),
            words: empty_image(alloc),
            rank: Vec::new(alloc),
        }
    }
}

/// The ranks of these slots.
fn rank_slots(slots: &[SlotId], rank: &[u64], ranks: &mut Vec<u64>) -> Result<(), OutOfMemory>
    requires within { All (λ s. s.0 < length rank.now) slots.now }
    ensures { OnOk result (ranks.new.items ≡ map (λ s. slice_index rank.now s.0) slots.now) }
{
    ranks.clear();
    for slot in slots {
        ranks.push(rank[slot.0 as usize])?;
    }
    Ok(())
}

/// The numbers of these slots.
fn number_slots(slots: &[SlotId], ranks: &mut Vec<u64>) -> Result<(), OutOfMemory>
    ensures { OnOk result (ranks.new.items ≡ map (λ s. s.0) slots.now) }
{
    ranks.clear();
    for slot in slots {
        ranks.push(u64::from(slot.0))?;
    }
    Ok(())
}

/// The audit of a domain, by a seat that is alone and has nothing dying: how many objects live, how many entries are
/// deferred, how many objects are unreached, what all that live weigh, and a walk round a cycle of unreached ones, if
/// there are any. `rank` has one number for each slot, and says only which cycle is found and where its walk begins.
/// Where all ranks are different, one walk alone is the one that is found; of two slots of equal rank either may count
/// as the least.
///
/// What it finds is so of the state that the domain shows before the call, and after it, since nothing changes but the
/// seat's trail: two events, by which the seat announces a slot in its first word and takes that back.
///
/// It loads a word of bits for each slot, and the words of the cells and of the slots that aren't free once. For these
/// alone it takes memory, of their words and a few numbers each; it goes over them six times at most, with one call of
/// `weigh` for each object. `OutOfMemory` comes only of an allocation failure.
pub fn audit_domain<P: Protocol, F: Fn(&[u64; 16]) -> u64>(
    alloc: Global,
    domain: &Domain<P>,
    seat: &mut Seat<P>,
    weigh: &Deleter<P::Kind, F>,
    rank: &[u64],
) -> Result<Audit, OutOfMemory>
    requires rest { IsAtRest domain.now seat.old }
    requires alone { IsAlone seat.old.view }
    requires none_dying { seat.old.view.core.dying ≡ [] }
    requires weighs { Weighs P.Kind.fits P.Kind.weight F.Fn weigh.now }
    requires ranked { length rank.now ≡ domain.now.shape.slots }
    ensures found { IfOk result
        (IsWholeAudit P.Kind.fits P.Kind.weight rank.now seat.new.view) }
    ensures stays { Stays P.Kind.fits domain.now seat.old seat.new }
    ensures client { seat.new.view.client ≡ seat.old.view.client }
    ensures objects { KnowsStill seat.old.view.core seat.old seat.new }
    ensures whole { (own_of seat.new.view).whole ≡ (own_of seat.old.view).whole }
    ensures room { HasRoom seat.old.view.core → HasRoom seat.new.view.core }
    ensures alone { IsAlone seat.new.view }
    ensures rest { IsAtRest domain.now seat.new }
{
    let mut room = AuditRoom::empty(alloc);
    learn(domain, seat);
    domain.taken_image_into(seat, &mut room.taken, &mut room.words)?;
    rank_slots(&room.taken, rank, &mut room.rank)?;
    audit_taken(alloc, &room.taken, &mut room.words, weigh, &room.rank)
}

/// The same, where each slot's rank is its number, and in the memory of earlier audits.
pub fn audit_by_number<P: Protocol, F: Fn(&[u64; 16]) -> u64>(
    alloc: Global,
    domain: &Domain<P>,
    seat: &mut Seat<P>,
    weigh: &Deleter<P::Kind, F>,
    room: &mut AuditRoom,
) -> Result<Audit, OutOfMemory>
    requires rest { IsAtRest domain.now seat.old }
    requires alone { IsAlone seat.old.view }
    requires none_dying { seat.old.view.core.dying ≡ [] }
    requires weighs { Weighs P.Kind.fits P.Kind.weight F.Fn weigh.now }
    ensures found { IfOk result (IsWholeAudit P.Kind.fits P.Kind.weight
        (numbers domain.now.shape.slots) seat.new.view) }
    ensures stays { Stays P.Kind.fits domain.now seat.old seat.new }
    ensures client { seat.new.view.client ≡ seat.old.view.client }
    ensures objects { KnowsStill seat.old.view.core seat.old seat.new }
    ensures whole { (own_of seat.new.view).whole ≡ (own_of seat.old.view).whole }
    ensures room { HasRoom seat.old.view.core → HasRoom seat.new.view.core }
    ensures alone { IsAlone seat.new.view }
    ensures rest { IsAtRest domain.now seat.new }
{
    learn(domain, seat);
    domain.taken_image_into(seat, &mut room.taken, &mut room.words)?;
    number_slots(&room.taken, &mut room.rank)?;
    audit_taken(alloc, &room.taken, &mut room.words, weigh, &room.rank)
}
