//! Acts with snapshots.
ghost use Rattle.std.specs.Prelude.{◌≡◌};
ghost use Rattle.snapshot_ptr.specs.Handles.{IsUnder};
ghost use Rattle.handle_tests.specs.Plays.{Plays};

use crate::acts::{Said, Spot, WeakSpot};
use crate::counting_acts::give_up;
use crate::place_acts::place_of;
use crate::player::{Objects, Player, note_strong};
use crate::weak_place_acts::weak_place_of;
use atomic_weak::{WeakSnap, WeakSnapshot, end_weak, try_weak_snapshot, weak_counted};
use control_word::{AnyStep, Domain, LoadError, Spent, Strong};
use slot_store::read;
use snapshot_ptr::{Snapshot, counted, end, snapshot, try_snapshot};
use std::sync::Wait;

/// What a snapshot is of, and whether it is counted.
fn seen_by(snapshot: &Snapshot) -> Said {
    let slot = snapshot.slot().0;
    if counted(snapshot) {
        Said::Counted(slot)
    } else {
        Said::Slot(slot)
    }
}

pub(crate) fn look(domain: &Domain<Objects>, player: &mut Player, spot: Spot) -> Said
    requires { Plays domain.now player.old.seat player.old.strongs.items player.old.weaks.items }
    ensures plays { Plays domain.now player.new.seat player.new.strongs.items
        player.new.weaks.items }
    ensures notes { player.new.seat.view.core.notes ≡ player.old.seat.view.core.notes }
{
    let Some(place) = place_of(domain, player, spot) else {
        return Said::Never;
    };
    match try_snapshot(domain, &mut player.seat, place, AnyStep) {
        Ok(Some(snapshot)) => {
            let seen = seen_by(&snapshot);
            end(domain, &mut player.seat, snapshot);
            seen
        }
        Ok(None) => Said::Null,
        Err(LoadError::Moved { .. }) => Said::Moved,
        Err(LoadError::Spent) => Said::Spent,
    }
}

pub(crate) fn look_on<R: Wait>(
    rt: &R,
    domain: &Domain<Objects>,
    player: &mut Player,
    spot: Spot,
) -> Said
    requires { Plays domain.now player.old.seat player.old.strongs.items player.old.weaks.items }
    ensures plays { Plays domain.now player.new.seat player.new.strongs.items
        player.new.weaks.items }
    ensures notes { player.new.seat.view.core.notes ≡ player.old.seat.view.core.notes }
{
    let Some(place) = place_of(domain, player, spot) else {
        return Said::Never;
    };
    match snapshot(rt, domain, &mut player.seat, place, AnyStep) {
        Ok(Some(snapshot)) => {
            let seen = seen_by(&snapshot);
            end(domain, &mut player.seat, snapshot);
            seen
        }
        Ok(None) => Said::Null,
        Err(Spent) => Said::Spent,
    }
}

pub(crate) fn take(domain: &Domain<Objects>, player: &mut Player, spot: Spot) -> Said
    requires { Plays domain.now player.old.seat player.old.strongs.items player.old.weaks.items }
    ensures plays { Plays domain.now player.new.seat player.new.strongs.items
        player.new.weaks.items }
    ensures notes { player.new.seat.view.core.notes ≡ player.old.seat.view.core.notes }
{
    let Some(place) = place_of(domain, player, spot) else {
        return Said::Never;
    };
    match try_snapshot(domain, &mut player.seat, place, AnyStep) {
        Ok(Some(snapshot)) => {
            let seen = seen_by(&snapshot);
            if counted(&snapshot) {
                note_strong(domain, player, Strong::of(snapshot.slot()));
            } else {
                end(domain, &mut player.seat, snapshot);
            }
            seen
        }
        Ok(None) => Said::Null,
        Err(LoadError::Moved { .. }) => Said::Moved,
        Err(LoadError::Spent) => Said::Spent,
    }
}

pub(crate) fn keep(domain: &Domain<Objects>, player: &mut Player, seen: &Snapshot) -> Said
    requires plays { Plays domain.now player.old.seat player.old.strongs.items player.old.weaks.items }
    requires under { IsUnder seen.now player.old.seat.view.core }
    ensures plays { Plays domain.now player.new.seat player.new.strongs.items
        player.new.weaks.items }
    ensures notes { player.new.seat.view.core.notes ≡ player.old.seat.view.core.notes }
{
    match snapshot_ptr::keep(domain, &mut player.seat, seen) {
        Ok(strong) => note_strong(domain, player, strong),
        Err(Spent) => Said::Spent,
    }
}

pub(crate) fn watch(domain: &Domain<Objects>, player: &mut Player, spot: WeakSpot) -> Said
    requires { Plays domain.now player.old.seat player.old.strongs.items player.old.weaks.items }
    ensures plays { Plays domain.now player.new.seat player.new.strongs.items
        player.new.weaks.items }
    ensures notes { player.new.seat.view.core.notes ≡ player.old.seat.view.core.notes }
{
    let Some(place) = weak_place_of(domain, player, spot) else {
        return Said::Never;
    };
    match try_weak_snapshot(domain, &mut player.seat, place, AnyStep) {
        Ok(WeakSnap::Held(snapshot)) => {
            let slot = snapshot.slot().0;
            let counted = weak_counted(&snapshot);
            end_weak(domain, &mut player.seat, snapshot);
            if counted {
                Said::Counted(slot)
            } else {
                Said::Slot(slot)
            }
        }
        Ok(WeakSnap::Null) => Said::Null,
        Ok(WeakSnap::Zero) => Said::Nothing,
        Err(LoadError::Moved { .. }) => Said::Moved,
        Err(LoadError::Spent) => Said::Spent,
    }
}

/// The slot that waits under the snapshot, once the last strong reference was dropped: `Number` where it is ripe then.
fn drop_under(domain: &Domain<Objects>, player: &mut Player) -> Said
    requires { Plays domain.now player.old.seat player.old.strongs.items player.old.weaks.items }
    ensures plays { Plays domain.now player.new.seat player.new.strongs.items
        player.new.weaks.items }
    ensures notes { player.new.seat.view.core.notes ≡ player.old.seat.view.core.notes }
{
    give_up(domain, player);
    slot_store::collect(domain, &mut player.seat);
    match (
        domain.next_dying(&player.seat),
        domain.next_ripe(&player.seat),
    ) {
        (_, Some(slot)) => Said::Number(u64::from(slot.0)),
        (Some(slot), None) => Said::Slot(slot.0),
        (None, None) => Said::Nothing,
    }
}

pub(crate) fn outlive(domain: &Domain<Objects>, player: &mut Player, spot: WeakSpot) -> Said
    requires { Plays domain.now player.old.seat player.old.strongs.items player.old.weaks.items }
    ensures plays { Plays domain.now player.new.seat player.new.strongs.items
        player.new.weaks.items }
    ensures notes { player.new.seat.view.core.notes ≡ player.old.seat.view.core.notes }
{
    let Some(place) = weak_place_of(domain, player, spot) else {
        return Said::Never;
    };
    match try_weak_snapshot(domain, &mut player.seat, place, AnyStep) {
        Ok(WeakSnap::Held(snapshot)) => {
            if weak_counted(&snapshot) {
                end_weak(domain, &mut player.seat, snapshot);
                return Said::Never;
            }
            let waiting = drop_under(domain, player);
            end_weak(domain, &mut player.seat, snapshot);
            waiting
        }
        Ok(WeakSnap::Null) => Said::Null,
        Ok(WeakSnap::Zero) => Said::Nothing,
        Err(LoadError::Moved { .. }) => Said::Moved,
        Err(LoadError::Spent) => Said::Spent,
    }
}
