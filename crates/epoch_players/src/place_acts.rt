//! Acts on places: a reference goes in, and what was there comes to be pending.
ghost use Rattle.std.specs.Prelude.{◌<◌, ◌++◌, ◌∷◌, [], IfSome};
ghost use Rattle.epoch_refs.specs.plain_protocol.plain_state.Lists.{times};
ghost use Rattle.epoch_refs.specs.epoch_core.Steps.{IsContent};
ghost use Rattle.epoch_refs.specs.epoch_core.Views.{IsOpen};
ghost use Rattle.epoch_refs.specs.Calls.{event_place};
ghost use Rattle.epoch_players.specs.Plays.{Plays};

use crate::acts::{Said, Spot};
use crate::player::{Objects, Player, note_strong, seen_at, strong_at, take_strong};
use epoch_refs::{AnyStep, ECasError, EpochDomain, Place, SlotId, Strong, e_cas, e_store};

/// The place, if there is such a one and it is open to the player.
pub fn place_of(domain: &EpochDomain<Objects>, player: &Player, spot: Spot) -> Option<Place>
    requires { Plays domain.now player.now.seat player.now.strongs.items player.now.seen.items
        player.now.inside }
    ensures { IfSome result (λ place.
        IsOpen domain.now.shape player.now.seat.view.core (event_place place)) }
{
    match spot {
        Spot::Cell(cell) if cell < domain.shape().cells => Some(Place::Cell(cell)),
        Spot::Field(index, field) if field < 2 => {
            let slot = strong_at(domain, player, index)?;
            Some(Place::Field(slot, field))
        }
        Spot::SeenField(index, field) if field < 2 => {
            let slot = seen_at(domain, player, index)?;
            Some(Place::Field(slot, field))
        }
        _ => None,
    }
}

/// The slot of this number, or null; none where the domain has no such slot.
fn content_of(domain: &EpochDomain<Objects>, slot: Option<u32>) -> Option<Option<SlotId>>
    ensures { IfSome result (IsContent domain.now.shape) }
{
    match slot {
        None => Some(None),
        Some(slot) if slot < domain.shape().slots => Some(Some(SlotId(slot))),
        Some(_) => None,
    }
}

pub fn store(domain: &EpochDomain<Objects>, player: &mut Player, spot: Spot) -> Said
    requires { Plays domain.now player.old.seat player.old.strongs.items player.old.seen.items
        player.old.inside }
    ensures { Plays domain.now player.new.seat player.new.strongs.items player.new.seen.items
        player.new.inside }
{
    let Some(place) = place_of(domain, player, spot) else {
        return Said::Never;
    };
    let Some(strong) = take_strong(domain, player) else {
        return Said::Never;
    };
    put(domain, player, place, strong)
}

/// Puts a reference that the seat has into the place. Without memory the seat has it still.
fn put(domain: &EpochDomain<Objects>, player: &mut Player, place: Place, strong: Strong) -> Said
    requires plays { Plays domain.now player.old.seat
        (player.old.strongs.items ++ strong.slot ∷ []) player.old.seen.items
        player.old.inside }
    requires open { IsOpen domain.now.shape player.old.seat.view.core (event_place place) }
    requires owned { 0 < times strong.slot player.old.seat.view.core.owned }
    ensures { Plays domain.now player.new.seat player.new.strongs.items player.new.seen.items
        player.new.inside }
{
    match e_store(
        player.alloc,
        domain,
        &mut player.seat,
        place,
        Some(strong),
        AnyStep,
    ) {
        Ok(()) => Said::Done,
        Err(refused) => {
            if let Some(back) = refused.back {
                note_strong(domain, player, back);
            }
            Said::NoMemory
        }
    }
}

pub fn clear(domain: &EpochDomain<Objects>, player: &mut Player, spot: Spot) -> Said
    requires { Plays domain.now player.old.seat player.old.strongs.items player.old.seen.items
        player.old.inside }
    ensures { Plays domain.now player.new.seat player.new.strongs.items player.new.seen.items
        player.new.inside }
{
    let Some(place) = place_of(domain, player, spot) else {
        return Said::Never;
    };
    match e_store(player.alloc, domain, &mut player.seat, place, None, AnyStep) {
        Ok(()) => Said::Done,
        Err(_) => Said::NoMemory,
    }
}

pub fn replace(
    domain: &EpochDomain<Objects>,
    player: &mut Player,
    spot: Spot,
    expected: Option<u32>,
) -> Said
    requires { Plays domain.now player.old.seat player.old.strongs.items player.old.seen.items
        player.old.inside }
    ensures { Plays domain.now player.new.seat player.new.strongs.items player.new.seen.items
        player.new.inside }
{
    let Some(place) = place_of(domain, player, spot) else {
        return Said::Never;
    };
    let Some(expected) = content_of(domain, expected) else {
        return Said::Never;
    };
    let Some(strong) = take_strong(domain, player) else {
        return Said::Never;
    };
    put_where(domain, player, place, expected, strong)
}

/// Puts a reference that the seat has into the place, where that holds what is expected; else the seat has it still.
fn put_where(
    domain: &EpochDomain<Objects>,
    player: &mut Player,
    place: Place,
    expected: Option<SlotId>,
    strong: Strong,
) -> Said
    requires plays { Plays domain.now player.old.seat
        (player.old.strongs.items ++ strong.slot ∷ []) player.old.seen.items
        player.old.inside }
    requires open { IsOpen domain.now.shape player.old.seat.view.core (event_place place) }
    requires expected { IsContent domain.now.shape expected }
    requires owned { 0 < times strong.slot player.old.seat.view.core.owned }
    ensures { Plays domain.now player.new.seat player.new.strongs.items player.new.seen.items
        player.new.inside }
{
    let seat = &mut player.seat;
    match e_cas(
        player.alloc,
        domain,
        seat,
        place,
        expected,
        Some(strong),
        AnyStep,
    ) {
        Ok(()) => Said::Done,
        Err(ECasError::Lost { now, back }) => {
            if let Some(back) = back {
                note_strong(domain, player, back);
            }
            Said::Lost(now)
        }
        Err(ECasError::OutOfMemory(refused)) => {
            if let Some(back) = refused.back {
                note_strong(domain, player, back);
            }
            Said::NoMemory
        }
    }
}

/// Null goes into the place, where that holds what is expected.
pub fn empty(
    domain: &EpochDomain<Objects>,
    player: &mut Player,
    spot: Spot,
    expected: Option<u32>,
) -> Said
    requires { Plays domain.now player.old.seat player.old.strongs.items player.old.seen.items
        player.old.inside }
    ensures { Plays domain.now player.new.seat player.new.strongs.items player.new.seen.items
        player.new.inside }
{
    let Some(place) = place_of(domain, player, spot) else {
        return Said::Never;
    };
    let Some(expected) = content_of(domain, expected) else {
        return Said::Never;
    };
    match e_cas(
        player.alloc,
        domain,
        &mut player.seat,
        place,
        expected,
        None,
        AnyStep,
    ) {
        Ok(()) => Said::Done,
        Err(ECasError::Lost { now, .. }) => Said::Lost(now),
        Err(ECasError::OutOfMemory(_)) => Said::NoMemory,
    }
}
