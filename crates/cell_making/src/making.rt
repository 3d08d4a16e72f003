//! The slots of a record that doesn't stand in a cell yet.
ghost use Rattle.std.specs.Prelude.{◌≡◌, ◌+◌, ◌*◌, ◌<◌, ◌≤◌, IfErr, IfOk, drop, length};
ghost use Rattle.std.specs.Int.{div_ceil};
ghost use Rattle.cell_calls.specs.cell_law.plain_state.Lists.{times};
ghost use Rattle.cell_calls.specs.cell_law.directory_law.Bytes.{IsPiece};
ghost use Rattle.cell_calls.specs.cell_law.directory_law.Payloads.{IsPart};
ghost use Rattle.cell_calls.specs.cell_law.Views.{IsWord};
ghost use Rattle.cell_calls.specs.Keeping.{Keeps};
ghost use Rattle.epoch_refs.specs.epoch_core.core_events.Views.{without};
ghost use Rattle.epoch_refs.specs.epoch_rule.Views.{object_in};
ghost use Rattle.epoch_refs.specs.Walks.{IsAtRest};
ghost use Rattle.record_texts.specs.Texts.{parts_after, parts_of, text_of};
ghost use Rattle.cell_making.specs.Making.{HasMade, HasMadeBefore, HasMadeOne, HasText, HasTwo, IsCause, IsFew, IsRefused, Links, UsesFewer, owned_with};

use crate::refusals::RecordError;
use cell_calls::{CellLaw, LinkPart, MakePiece};
use epoch_refs::{EpochDomain, EpochSeat, MakeError, Place, Strong, e_drop, e_make, e_store};
use record_texts::{head_of, part_at};
use std::alloc::Global;

/// Makes the slots of a text of 1 to 4,096 bytes, the last part first, and links each to the one that was made before
/// it. The head stands nowhere, and is noted last with the whole text.
///
/// `MakesSpent` and `AddsSpent` come where the seat has none left for the next slot, `Full` where a make found all
/// slots of the domain taken; fewer makes were used then than the record has slots. Where any refusal comes, what was
/// made so far has been given up. One make and one add for each slot, and at most 19 events more than the domain has
/// slots.
pub fn make_record(
    alloc: Global,
    domain: &EpochDomain<CellLaw>,
    seat: &mut EpochSeat<CellLaw>,
    text: &[u8],
) -> Result<Strong, RecordError>
    requires rest { IsAtRest domain.now seat.old }
    requires text { (1 ≤ length text.now) × (length text.now ≤ 4096) }
    ensures made { IfOk result (λ head. HasMade (text_of text.now) (div_ceil (length text.now) 120)
        head.slot seat.old seat.new) }
    ensures word { IsWord (text_of text.now) }
    ensures refused { IfErr result (λ error. IsRefused domain.now error seat.old seat.new) }
    ensures fewer { IfErr result (λ error. UsesFewer error (div_ceil (length text.now) 120)
        seat.old seat.new) }
    ensures keeps { Keeps (div_ceil (length text.now) 120) (div_ceil (length text.now) 120)
        (owned_with result seat.old.view.core.owned) seat.old seat.new }
    ensures events { IsFew (div_ceil (length text.now) 120 * (domain.now.shape.slots + 19))
        seat.old seat.new }
    ensures rest { IsAtRest domain.now seat.new }
{
    let head = head_of(text);
    if text.len() <= 120 {
        return make_slot(domain, seat, &head);
    }
    let rest = make_parts(alloc, domain, seat, text)?;
    make_before(alloc, domain, seat, &head, rest)
}

/// Makes all parts of a text of more than 120 bytes. The first one stands nowhere, and is noted last with them all.
fn make_parts(
    alloc: Global,
    domain: &EpochDomain<CellLaw>,
    seat: &mut EpochSeat<CellLaw>,
    text: &[u8],
) -> Result<Strong, RecordError>
    requires rest { IsAtRest domain.now seat.old }
    requires text { (120 < length text.now) × (length text.now ≤ 4096) }
    ensures made { IfOk result (λ front. HasMade (parts_of (parts_after (length text.now))
        (drop 120 text.now)) (parts_after (length text.now)) front.slot seat.old seat.new) }
    ensures part { IfOk result (λ front. IsPart (object_in seat.new.view front.slot).payload) }
    ensures refused { IfErr result (λ error. IsRefused domain.now error seat.old seat.new) }
    ensures fewer { IfErr result (λ error. UsesFewer error (parts_after (length text.now))
        seat.old seat.new) }
    ensures keeps { Keeps (parts_after (length text.now)) (parts_after (length text.now))
        (owned_with result seat.old.view.core.owned) seat.old seat.new }
    ensures events { IsFew (parts_after (length text.now) * (domain.now.shape.slots + 19))
        seat.old seat.new }
    ensures rest { IsAtRest domain.now seat.new }
{
    let parts = (text.len() - 1) / 120;
    let mut front = make_slot(domain, seat, &part_at(text, parts - 1))?;
    for made in 1..parts {
        front = make_before(alloc, domain, seat, &part_at(text, parts - 1 - made), front)?;
    }
    Ok(front)
}

/// Makes a slot with this payload, and links it to the part that was made before it, which it takes over.
fn make_before(
    alloc: Global,
    domain: &EpochDomain<CellLaw>,
    seat: &mut EpochSeat<CellLaw>,
    payload: &[u64; 16],
    rest: Strong,
) -> Result<Strong, RecordError>
    requires rest { IsAtRest domain.now seat.old }
    requires piece { IsPiece payload.now }
    requires owned { 0 < times rest.slot seat.old.view.core.owned }
    requires part { IsPart (object_in seat.old.view rest.slot).payload }
    requires noted { HasText rest.slot seat.old }
    ensures made { IfOk result (λ front. HasMadeBefore payload.now rest.slot front.slot seat.old
        seat.new) }
    ensures refused { IfErr result (λ error. IsRefused domain.now error seat.old seat.new) }
    ensures fewer { IfErr result (λ error. UsesFewer error 1 seat.old seat.new) }
    ensures keeps { Keeps 1 1 (owned_with result (without rest.slot seat.old.view.core.owned))
        seat.old seat.new }
    ensures events { IsFew (domain.now.shape.slots + 19) seat.old seat.new }
    ensures rest { IsAtRest domain.now seat.new }
{
    match make_slot(domain, seat, payload) {
        Ok(front) => link(alloc, domain, seat, front, rest),
        Err(error) => {
            e_drop(domain, seat, rest);
            Err(error)
        }
    }
}

/// Field 1 of the slot that was made last gets the part that was made before it. Where there is no memory for that,
/// both are given up.
fn link(
    alloc: Global,
    domain: &EpochDomain<CellLaw>,
    seat: &mut EpochSeat<CellLaw>,
    front: Strong,
    rest: Strong,
) -> Result<Strong, RecordError>
    requires rest { IsAtRest domain.now seat.old }
    requires two { HasTwo front.slot rest.slot seat.old }
    ensures links { IfOk result (λ head. (head ≡ front)
        × Links front.slot rest.slot seat.old seat.new) }
    ensures refused { IfErr result (λ error. IsRefused domain.now error seat.old seat.new) }
    ensures fewer { IfErr result (λ error. UsesFewer error 0 seat.old seat.new) }
    ensures keeps { Keeps 0 0
        (owned_with result (without front.slot (without rest.slot seat.old.view.core.owned)))
        seat.old seat.new }
    ensures events { IsFew 2 seat.old seat.new }
    ensures rest { IsAtRest domain.now seat.new }
{
    match e_store(
        alloc,
        domain,
        seat,
        Place::Field(front.slot(), 1),
        Some(rest),
        LinkPart,
    ) {
        Ok(()) => Ok(front),
        Err(refused) => {
            let Some(part) = refused.back else {
                unreachable!()
            };
            e_drop(domain, seat, part);
            e_drop(domain, seat, front);
            Err(RecordError::OutOfMemory)
        }
    }
}

/// Makes a slot with the payload of a head or a part. It stands nowhere, and is noted last.
fn make_slot(
    domain: &EpochDomain<CellLaw>,
    seat: &mut EpochSeat<CellLaw>,
    payload: &[u64; 16],
) -> Result<Strong, RecordError>
    requires rest { IsAtRest domain.now seat.old }
    requires piece { IsPiece payload.now }
    ensures made { IfOk result (λ slot. HasMadeOne payload.now slot.slot seat.old seat.new) }
    ensures refused { IfErr result (λ error. IsRefused domain.now error seat.old seat.new) }
    ensures fewer { IfErr result (λ error. UsesFewer error 1 seat.old seat.new) }
    ensures keeps { Keeps 1 1 (owned_with result seat.old.view.core.owned) seat.old seat.new }
    ensures events { IsFew (domain.now.shape.slots + 17) seat.old seat.new }
    ensures rest { IsAtRest domain.now seat.new }
{
    match e_make(domain, seat, payload, MakePiece) {
        Ok(slot) => Ok(slot),
        Err(MakeError::MakesSpent) => Err(RecordError::MakesSpent),
        Err(MakeError::AddsSpent) => Err(RecordError::AddsSpent),
        Err(MakeError::Full) => Err(RecordError::Full),
    }
}
