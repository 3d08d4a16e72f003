//! Acts on weak places.
ghost use Rattle.std.specs.Prelude.{◌≡◌, ◌<◌, ◌++◌, ◌∷◌, [], IfSome};
ghost use Rattle.control_word.specs.plain_state.Lists.{times};
ghost use Rattle.control_word.specs.core_events.Steps.{IsContent};
ghost use Rattle.control_word.specs.core_events.Views.{IsOpen};
ghost use Rattle.atomic_weak.specs.Loading.{CanLoad};
ghost use Rattle.atomic_weak.specs.Places.{weak_place};
ghost use Rattle.handle_tests.specs.Plays.{Plays};

use crate::acts::{Said, WeakSpot};
use crate::place_acts::content_of;
use crate::player::{Objects, Player, note_weak, strong_at, take_weak};
use atomic_weak;
use control_word::{AnyStep, Domain, LoadError, SlotId, Spent, Weak, WeakPlace};
use std::sync::Wait;

/// The place, if there is such a one and it is open to the player.
pub(crate) fn weak_place_of(
    domain: &Domain<Objects>,
    player: &Player,
    spot: WeakSpot,
) -> Option<WeakPlace>
    requires { Plays domain.now player.now.seat player.now.strongs.items player.now.weaks.items }
    ensures open { IfSome result (λ place.
        IsOpen domain.now.shape player.now.seat.view.core (weak_place place)) }
    ensures load { IfSome result (λ place.
        CanLoad domain.now.shape player.now.seat.view.core place) }
{
    match spot {
        WeakSpot::Cell(cell) if cell < domain.shape().weak_cells => Some(WeakPlace::Cell(cell)),
        WeakSpot::Cell(_) => None,
        WeakSpot::Field(index) => {
            let slot = strong_at(domain, player, index)?;
            Some(WeakPlace::Field(slot))
        }
    }
}

pub(crate) fn try_load_weak(domain: &Domain<Objects>, player: &mut Player, spot: WeakSpot) -> Said
    requires { Plays domain.now player.old.seat player.old.strongs.items player.old.weaks.items }
    ensures plays { Plays domain.now player.new.seat player.new.strongs.items
        player.new.weaks.items }
    ensures notes { player.new.seat.view.core.notes ≡ player.old.seat.view.core.notes }
{
    let Some(place) = weak_place_of(domain, player, spot) else {
        return Said::Never;
    };
    match atomic_weak::try_load_weak(domain, &mut player.seat, place, AnyStep) {
        Ok(Some(weak)) => note_weak(domain, player, weak),
        Ok(None) => Said::Null,
        Err(LoadError::Moved { .. }) => Said::Moved,
        Err(LoadError::Spent) => Said::Spent,
    }
}

pub(crate) fn load_weak<R: Wait>(
    rt: &R,
    domain: &Domain<Objects>,
    player: &mut Player,
    spot: WeakSpot,
) -> Said
    requires { Plays domain.now player.old.seat player.old.strongs.items player.old.weaks.items }
    ensures plays { Plays domain.now player.new.seat player.new.strongs.items
        player.new.weaks.items }
    ensures notes { player.new.seat.view.core.notes ≡ player.old.seat.view.core.notes }
{
    let Some(place) = weak_place_of(domain, player, spot) else {
        return Said::Never;
    };
    match atomic_weak::load_weak(rt, domain, &mut player.seat, place, AnyStep) {
        Ok(Some(weak)) => note_weak(domain, player, weak),
        Ok(None) => Said::Null,
        Err(Spent) => Said::Spent,
    }
}

pub(crate) fn store_weak(domain: &Domain<Objects>, player: &mut Player, spot: WeakSpot) -> Said
    requires { Plays domain.now player.old.seat player.old.strongs.items player.old.weaks.items }
    ensures plays { Plays domain.now player.new.seat player.new.strongs.items
        player.new.weaks.items }
    ensures notes { player.new.seat.view.core.notes ≡ player.old.seat.view.core.notes }
{
    let Some(place) = weak_place_of(domain, player, spot) else {
        return Said::Never;
    };
    let Some(weak) = take_weak(domain, player) else {
        return Said::Never;
    };
    atomic_weak::store_weak(domain, &mut player.seat, place, Some(weak), AnyStep);
    Said::Done
}

pub(crate) fn clear_weak(domain: &Domain<Objects>, player: &mut Player, spot: WeakSpot) -> Said
    requires { Plays domain.now player.old.seat player.old.strongs.items player.old.weaks.items }
    ensures plays { Plays domain.now player.new.seat player.new.strongs.items
        player.new.weaks.items }
    ensures notes { player.new.seat.view.core.notes ≡ player.old.seat.view.core.notes }
{
    let Some(place) = weak_place_of(domain, player, spot) else {
        return Said::Never;
    };
    atomic_weak::store_weak(domain, &mut player.seat, place, None, AnyStep);
    Said::Done
}

pub(crate) fn replace_weak(
    domain: &Domain<Objects>,
    player: &mut Player,
    spot: WeakSpot,
    expected: Option<u32>,
) -> Said
    requires { Plays domain.now player.old.seat player.old.strongs.items player.old.weaks.items }
    ensures plays { Plays domain.now player.new.seat player.new.strongs.items
        player.new.weaks.items }
    ensures notes { player.new.seat.view.core.notes ≡ player.old.seat.view.core.notes }
{
    let Some(place) = weak_place_of(domain, player, spot) else {
        return Said::Never;
    };
    let Some(expected) = content_of(domain, expected) else {
        return Said::Never;
    };
    let Some(weak) = take_weak(domain, player) else {
        return Said::Never;
    };
    put_weak_where(domain, player, place, expected, weak)
}

/// Puts a reference that the seat has into the place, where that holds what is expected; else it has it still.
fn put_weak_where(
    domain: &Domain<Objects>,
    player: &mut Player,
    place: WeakPlace,
    expected: Option<SlotId>,
    weak: Weak,
) -> Said
    requires plays { Plays domain.now player.old.seat player.old.strongs.items
        (player.old.weaks.items ++ weak.slot ∷ []) }
    requires open { IsOpen domain.now.shape player.old.seat.view.core (weak_place place) }
    requires expected { IsContent domain.now.shape expected }
    requires owned { 0 < times weak.slot player.old.seat.view.core.weaks }
    ensures plays { Plays domain.now player.new.seat player.new.strongs.items
        player.new.weaks.items }
    ensures notes { player.new.seat.view.core.notes ≡ player.old.seat.view.core.notes }
{
    let seat = &mut player.seat;
    match atomic_weak::try_replace_weak(domain, seat, place, expected, Some(weak), AnyStep) {
        Ok(()) => Said::Done,
        Err(lost) => {
            let now = lost.now;
            if let Some(back) = lost.back {
                note_weak(domain, player, back);
            }
            Said::Lost(now)
        }
    }
}
