//! Scripts that a player plays, act by act.
ghost use Rattle.std.specs.Prelude.{◌≡◌};
ghost use Rattle.snapshot_ptr.specs.Handles.{IsUnder};
ghost use Rattle.handle_tests.specs.Plays.{IsUnderNow, Plays};

use crate::acts::{Act, Said, Spot};
use crate::counting_acts::{
    copy, copy_weak, count, count_by, count_weak, give_up, give_up_weak, upgrade, weaken,
};
use crate::place_acts::{clear, load, place_of, replace, store, try_load};
use crate::player::{Objects, Player};
use crate::slot_acts::{audit, collect, draw_ticket, make, read_first, reap, settle_all};
use crate::snapshot_acts::{keep, look, look_on, outlive, take, watch};
use crate::weak_place_acts::{clear_weak, load_weak, replace_weak, store_weak, try_load_weak};
use control_word::{AnyStep, Domain, LoadError};
use snapshot_ptr::{Snapshot, counted, end, try_snapshot};
use std::sync::Wait;

/// An act, and what it is to answer.
pub(crate) type Line = (Act, Said);

/// Makes an act on places, or asks something.
fn play_on_places<R: Wait>(rt: &R, domain: &Domain<Objects>, player: &mut Player, act: Act) -> Said
    requires { Plays domain.now player.old.seat player.old.strongs.items player.old.weaks.items }
    ensures plays { Plays domain.now player.new.seat player.new.strongs.items
        player.new.weaks.items }
    ensures notes { player.new.seat.view.core.notes ≡ player.old.seat.view.core.notes }
{
    match act {
        Act::TryLoad(spot) => try_load(domain, player, spot),
        Act::Load(spot) => load(rt, domain, player, spot),
        Act::Store(spot) => store(domain, player, spot),
        Act::Clear(spot) => clear(domain, player, spot),
        Act::Replace(spot, expected) => replace(domain, player, spot, expected),
        Act::TryLoadWeak(spot) => try_load_weak(domain, player, spot),
        Act::LoadWeak(spot) => load_weak(rt, domain, player, spot),
        Act::StoreWeak(spot) => store_weak(domain, player, spot),
        Act::ClearWeak(spot) => clear_weak(domain, player, spot),
        Act::ReplaceWeak(spot, expected) => replace_weak(domain, player, spot, expected),
        Act::Look(spot) => look(domain, player, spot),
        Act::LookOn(spot) => look_on(rt, domain, player, spot),
        Act::Take(spot) => take(domain, player, spot),
        Act::Watch(spot) => watch(domain, player, spot),
        Act::Outlive(spot) => outlive(domain, player, spot),
        _ => ask(domain, player, act),
    }
}

/// Asks something about the player.
fn ask(domain: &Domain<Objects>, player: &Player, act: Act) -> Said
    requires { Plays domain.now player.now.seat player.now.strongs.items player.now.weaks.items }
{
    match act {
        Act::Adds => Said::Number(domain.adds(&player.seat)),
        Act::Deferred => Said::Number(u64::from(domain.deferred(&player.seat))),
        Act::Dying => match domain.next_dying(&player.seat) {
            Some(slot) => Said::Slot(slot.0),
            None => Said::Nothing,
        },
        _ => Said::Never,
    }
}

/// Makes an act.
pub(crate) fn play<R: Wait>(rt: &R, domain: &Domain<Objects>, player: &mut Player, act: Act) -> Said
    requires { Plays domain.now player.old.seat player.old.strongs.items player.old.weaks.items }
    ensures plays { Plays domain.now player.new.seat player.new.strongs.items
        player.new.weaks.items }
    ensures notes { player.new.seat.view.core.notes ≡ player.old.seat.view.core.notes }
{
    match act {
        Act::Make(weight) => make(domain, player, weight),
        Act::Read(index) => read_first(domain, player, index),
        Act::Drop => give_up(domain, player),
        Act::Copy(index) => copy(domain, player, index),
        Act::Weaken(index) => weaken(domain, player, index),
        Act::CopyWeak(index) => copy_weak(domain, player, index),
        Act::DropWeak => give_up_weak(domain, player),
        Act::Upgrade(index) => upgrade(domain, player, index),
        Act::Count(index) => count(domain, player, index),
        Act::CountBy(index) => count_by(domain, player, index),
        Act::CountWeak(index) => count_weak(domain, player, index),
        Act::Ticket => draw_ticket(domain, player),
        Act::Collect => collect(domain, player),
        Act::Reap => reap(domain, player),
        Act::Settle => settle_all(domain, player),
        Act::Audit(least) => audit(domain, player, least),
        _ => play_on_places(rt, domain, player, act),
    }
}

/// Whether an act answered something else than it was to.
fn differs(answer: Said, expected: Said) -> bool {
    expected != Said::Whatever && answer != expected
}

/// Plays a script, and tells which act was the first to answer something else than stands beside it, and what.
pub(crate) fn run<R: Wait>(
    rt: &R,
    domain: &Domain<Objects>,
    player: &mut Player,
    script: &[Line],
) -> Option<(usize, Said)>
    requires { Plays domain.now player.old.seat player.old.strongs.items player.old.weaks.items }
    ensures plays { Plays domain.now player.new.seat player.new.strongs.items
        player.new.weaks.items }
    ensures notes { player.new.seat.view.core.notes ≡ player.old.seat.view.core.notes }
{
    for (index, (act, expected)) in script.iter().enumerate() {
        let answer = play(rt, domain, player, *act);
        if differs(answer, *expected) {
            return Some((index, answer));
        }
    }
    None
}

/// The same, where an act may keep a reference of the snapshot that the player is under.
fn run_under<R: Wait>(
    rt: &R,
    domain: &Domain<Objects>,
    player: &mut Player,
    seen: &Snapshot,
    script: &[Line],
) -> Option<(usize, Said)>
    requires plays { Plays domain.now player.old.seat player.old.strongs.items player.old.weaks.items }
    requires under { IsUnderNow seen.now player.old.seat.view.core.notes }
    ensures plays { Plays domain.now player.new.seat player.new.strongs.items
        player.new.weaks.items }
    ensures notes { player.new.seat.view.core.notes ≡ player.old.seat.view.core.notes }
{
    for (index, (act, expected)) in script.iter().enumerate() {
        let answer = match act {
            Act::Keep => keep(domain, player, seen),
            _ => play(rt, domain, player, *act),
        };
        if differs(answer, *expected) {
            return Some((index, answer));
        }
    }
    None
}

/// Plays a script under so many snapshots of what a place holds, none of them counted, which end afterwards.
pub(crate) fn run_deep<R: Wait>(
    rt: &R,
    domain: &Domain<Objects>,
    player: &mut Player,
    spot: Spot,
    depth: u32,
    script: &[Line],
) -> Option<(usize, Said)>
    requires { Plays domain.now player.old.seat player.old.strongs.items player.old.weaks.items }
    ensures plays { Plays domain.now player.new.seat player.new.strongs.items
        player.new.weaks.items }
    ensures notes { player.new.seat.view.core.notes ≡ player.old.seat.view.core.notes }
{
    if depth == 0 {
        return run(rt, domain, player, script);
    }
    let Some(place) = place_of(domain, player, spot) else {
        return Some((script.len(), Said::Never));
    };
    let seen = match try_snapshot(domain, &mut player.seat, place, AnyStep) {
        Ok(Some(seen)) => seen,
        Ok(None) => return Some((script.len(), Said::Null)),
        Err(LoadError::Moved { .. }) => return Some((script.len(), Said::Moved)),
        Err(LoadError::Spent) => return Some((script.len(), Said::Spent)),
    };
    if counted(&seen) {
        end(domain, &mut player.seat, seen);
        return Some((script.len(), Said::Never));
    }
    let first = if depth == 1 {
        run_under(rt, domain, player, &seen, script)
    } else {
        run_deep(rt, domain, player, spot, depth - 1, script)
    };
    end(domain, &mut player.seat, seen);
    first
}
