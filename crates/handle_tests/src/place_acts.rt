//! Acts on strong places.
ghost use Rattle.std.specs.Prelude.{◌≡◌, ◌<◌, ◌++◌, ◌∷◌, [], IfSome};
ghost use Rattle.control_word.specs.plain_state.Lists.{times};
ghost use Rattle.control_word.specs.core_events.Steps.{IsContent};
ghost use Rattle.control_word.specs.core_events.Views.{IsOpen};
ghost use Rattle.atomic_shared.specs.Loading.{CanLoad};
ghost use Rattle.atomic_shared.specs.Places.{strong_place};
ghost use Rattle.handle_tests.specs.Plays.{Plays};

use crate::acts::{Said, Spot};
use crate::player::{Objects, Player, note_strong, strong_at, take_strong};
use atomic_shared;
use control_word::{AnyStep, Domain, LoadError, Place, SlotId, Spent, Strong};
use std::sync::Wait;

/// The place, if there is such a one and it is open to the player.
pub(crate) fn place_of(domain: &Domain<Objects>, player: &Player, spot: Spot) -> Option<Place>
    requires { Plays domain.now player.now.seat player.now.strongs.items player.now.weaks.items }
    ensures open { IfSome result (λ place.
        IsOpen domain.now.shape player.now.seat.view.core (strong_place place)) }
    ensures load { IfSome result (λ place.
        CanLoad domain.now.shape player.now.seat.view.core place) }
{
    match spot {
        Spot::Cell(cell) if cell < domain.shape().cells => Some(Place::Cell(cell)),
        Spot::Field(index, field) if field < 2 => {
            let slot = strong_at(domain, player, index)?;
            Some(Place::Field(slot, field))
        }
        _ => None,
    }
}

/// The slot of this number, or null; none where the domain has no such slot.
pub(crate) fn content_of(domain: &Domain<Objects>, slot: Option<u32>) -> Option<Option<SlotId>>
    ensures { IfSome result (IsContent domain.now.shape) }
{
    match slot {
        None => Some(None),
        Some(slot) if slot < domain.shape().slots => Some(Some(SlotId(slot))),
        Some(_) => None,
    }
}

pub(crate) fn try_load(domain: &Domain<Objects>, player: &mut Player, spot: Spot) -> Said
    requires { Plays domain.now player.old.seat player.old.strongs.items player.old.weaks.items }
    ensures plays { Plays domain.now player.new.seat player.new.strongs.items
        player.new.weaks.items }
    ensures notes { player.new.seat.view.core.notes ≡ player.old.seat.view.core.notes }
{
    let Some(place) = place_of(domain, player, spot) else {
        return Said::Never;
    };
    match atomic_shared::try_load(domain, &mut player.seat, place, AnyStep) {
        Ok(Some(strong)) => note_strong(domain, player, strong),
        Ok(None) => Said::Null,
        Err(LoadError::Moved { .. }) => Said::Moved,
        Err(LoadError::Spent) => Said::Spent,
    }
}

pub(crate) fn load<R: Wait>(
    rt: &R,
    domain: &Domain<Objects>,
    player: &mut Player,
    spot: Spot,
) -> Said
    requires { Plays domain.now player.old.seat player.old.strongs.items player.old.weaks.items }
    ensures plays { Plays domain.now player.new.seat player.new.strongs.items
        player.new.weaks.items }
    ensures notes { player.new.seat.view.core.notes ≡ player.old.seat.view.core.notes }
{
    let Some(place) = place_of(domain, player, spot) else {
        return Said::Never;
    };
    match atomic_shared::load(rt, domain, &mut player.seat, place, AnyStep) {
        Ok(Some(strong)) => note_strong(domain, player, strong),
        Ok(None) => Said::Null,
        Err(Spent) => Said::Spent,
    }
}

pub(crate) fn store(domain: &Domain<Objects>, player: &mut Player, spot: Spot) -> Said
    requires { Plays domain.now player.old.seat player.old.strongs.items player.old.weaks.items }
    ensures plays { Plays domain.now player.new.seat player.new.strongs.items
        player.new.weaks.items }
    ensures notes { player.new.seat.view.core.notes ≡ player.old.seat.view.core.notes }
{
    let Some(place) = place_of(domain, player, spot) else {
        return Said::Never;
    };
    let Some(strong) = take_strong(domain, player) else {
        return Said::Never;
    };
    atomic_shared::store(domain, &mut player.seat, place, Some(strong), AnyStep);
    Said::Done
}

pub(crate) fn clear(domain: &Domain<Objects>, player: &mut Player, spot: Spot) -> Said
    requires { Plays domain.now player.old.seat player.old.strongs.items player.old.weaks.items }
    ensures plays { Plays domain.now player.new.seat player.new.strongs.items
        player.new.weaks.items }
    ensures notes { player.new.seat.view.core.notes ≡ player.old.seat.view.core.notes }
{
    let Some(place) = place_of(domain, player, spot) else {
        return Said::Never;
    };
    atomic_shared::store(domain, &mut player.seat, place, None, AnyStep);
    Said::Done
}

pub(crate) fn replace(
    domain: &Domain<Objects>,
    player: &mut Player,
    spot: Spot,
    expected: Option<u32>,
) -> Said
    requires { Plays domain.now player.old.seat player.old.strongs.items player.old.weaks.items }
    ensures plays { Plays domain.now player.new.seat player.new.strongs.items
        player.new.weaks.items }
    ensures notes { player.new.seat.view.core.notes ≡ player.old.seat.view.core.notes }
{
    let Some(place) = place_of(domain, player, spot) else {
        return Said::Never;
    };
    let Some(expected) = content_of(domain, expected) else {
        return Said::Never;
    };
    let Some(strong) = take_strong(domain, player) else {
        return Said::Never;
    };
    put_where(domain, player, place, expected, strong)
}

/// Puts a reference that the seat has into the place, where that holds what is expected; else it has it still.
fn put_where(
    domain: &Domain<Objects>,
    player: &mut Player,
    place: Place,
    expected: Option<SlotId>,
    strong: Strong,
) -> Said
    requires plays { Plays domain.now player.old.seat
        (player.old.strongs.items ++ strong.slot ∷ []) player.old.weaks.items }
    requires open { IsOpen domain.now.shape player.old.seat.view.core (strong_place place) }
    requires expected { IsContent domain.now.shape expected }
    requires owned { 0 < times strong.slot player.old.seat.view.core.owned }
    ensures plays { Plays domain.now player.new.seat player.new.strongs.items
        player.new.weaks.items }
    ensures notes { player.new.seat.view.core.notes ≡ player.old.seat.view.core.notes }
{
    let seat = &mut player.seat;
    match atomic_shared::try_replace(domain, seat, place, expected, Some(strong), AnyStep) {
        Ok(()) => Said::Done,
        Err(lost) => {
            let now = lost.now;
            if let Some(back) = lost.back {
                note_strong(domain, player, back);
            }
            Said::Lost(now)
        }
    }
}
