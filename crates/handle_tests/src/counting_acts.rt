//! Acts that count references, or give them up.
ghost use Rattle.std.specs.Prelude.{◌≡◌};
ghost use Rattle.handle_tests.specs.Plays.{Plays};

use crate::acts::Said;
use crate::player::{
    Objects, Player, note_strong, note_weak, strong_at, take_strong, take_weak, weak_at,
};
use control_word;
use control_word::{AnyStep, Domain, Spent, Strong, UpgradeError, Weak, strong_count, weak_count};

pub(crate) fn copy(domain: &Domain<Objects>, player: &mut Player, index: usize) -> Said
    requires { Plays domain.now player.old.seat player.old.strongs.items player.old.weaks.items }
    ensures plays { Plays domain.now player.new.seat player.new.strongs.items
        player.new.weaks.items }
    ensures notes { player.new.seat.view.core.notes ≡ player.old.seat.view.core.notes }
{
    let Some(slot) = strong_at(domain, player, index) else {
        return Said::Never;
    };
    match control_word::copy_strong(domain, &mut player.seat, &Strong::of(slot)) {
        Ok(more) => note_strong(domain, player, more),
        Err(Spent) => Said::Spent,
    }
}

pub(crate) fn give_up(domain: &Domain<Objects>, player: &mut Player) -> Said
    requires { Plays domain.now player.old.seat player.old.strongs.items player.old.weaks.items }
    ensures plays { Plays domain.now player.new.seat player.new.strongs.items
        player.new.weaks.items }
    ensures notes { player.new.seat.view.core.notes ≡ player.old.seat.view.core.notes }
{
    let Some(strong) = take_strong(domain, player) else {
        return Said::Never;
    };
    control_word::drop_strong(domain, &mut player.seat, strong);
    Said::Done
}

pub(crate) fn weaken(domain: &Domain<Objects>, player: &mut Player, index: usize) -> Said
    requires { Plays domain.now player.old.seat player.old.strongs.items player.old.weaks.items }
    ensures plays { Plays domain.now player.new.seat player.new.strongs.items
        player.new.weaks.items }
    ensures notes { player.new.seat.view.core.notes ≡ player.old.seat.view.core.notes }
{
    let Some(slot) = strong_at(domain, player, index) else {
        return Said::Never;
    };
    match control_word::weaken(domain, &mut player.seat, &Strong::of(slot)) {
        Ok(weak) => note_weak(domain, player, weak),
        Err(Spent) => Said::Spent,
    }
}

pub(crate) fn copy_weak(domain: &Domain<Objects>, player: &mut Player, index: usize) -> Said
    requires { Plays domain.now player.old.seat player.old.strongs.items player.old.weaks.items }
    ensures plays { Plays domain.now player.new.seat player.new.strongs.items
        player.new.weaks.items }
    ensures notes { player.new.seat.view.core.notes ≡ player.old.seat.view.core.notes }
{
    let Some(slot) = weak_at(domain, player, index) else {
        return Said::Never;
    };
    match control_word::copy_weak(domain, &mut player.seat, &Weak::of(slot)) {
        Ok(weak) => note_weak(domain, player, weak),
        Err(Spent) => Said::Spent,
    }
}

pub(crate) fn give_up_weak(domain: &Domain<Objects>, player: &mut Player) -> Said
    requires { Plays domain.now player.old.seat player.old.strongs.items player.old.weaks.items }
    ensures plays { Plays domain.now player.new.seat player.new.strongs.items
        player.new.weaks.items }
    ensures notes { player.new.seat.view.core.notes ≡ player.old.seat.view.core.notes }
{
    let Some(weak) = take_weak(domain, player) else {
        return Said::Never;
    };
    control_word::drop_weak(domain, &mut player.seat, weak);
    Said::Done
}

pub(crate) fn upgrade(domain: &Domain<Objects>, player: &mut Player, index: usize) -> Said
    requires { Plays domain.now player.old.seat player.old.strongs.items player.old.weaks.items }
    ensures plays { Plays domain.now player.new.seat player.new.strongs.items
        player.new.weaks.items }
    ensures notes { player.new.seat.view.core.notes ≡ player.old.seat.view.core.notes }
{
    let Some(slot) = weak_at(domain, player, index) else {
        return Said::Never;
    };
    match control_word::upgrade(domain, &mut player.seat, &Weak::of(slot), AnyStep) {
        Ok(strong) => note_strong(domain, player, strong),
        Err(UpgradeError::Ended) => Said::Ended,
        Err(UpgradeError::Spent) => Said::Spent,
    }
}

pub(crate) fn count(domain: &Domain<Objects>, player: &mut Player, index: usize) -> Said
    requires { Plays domain.now player.old.seat player.old.strongs.items player.old.weaks.items }
    ensures plays { Plays domain.now player.new.seat player.new.strongs.items
        player.new.weaks.items }
    ensures notes { player.new.seat.view.core.notes ≡ player.old.seat.view.core.notes }
{
    let Some(slot) = strong_at(domain, player, index) else {
        return Said::Never;
    };
    Said::Number(strong_count(domain, &mut player.seat, slot, AnyStep))
}

pub(crate) fn count_by(domain: &Domain<Objects>, player: &mut Player, index: usize) -> Said
    requires { Plays domain.now player.old.seat player.old.strongs.items player.old.weaks.items }
    ensures plays { Plays domain.now player.new.seat player.new.strongs.items
        player.new.weaks.items }
    ensures notes { player.new.seat.view.core.notes ≡ player.old.seat.view.core.notes }
{
    let Some(slot) = weak_at(domain, player, index) else {
        return Said::Never;
    };
    Said::Number(strong_count(domain, &mut player.seat, slot, AnyStep))
}

pub(crate) fn count_weak(domain: &Domain<Objects>, player: &mut Player, index: usize) -> Said
    requires { Plays domain.now player.old.seat player.old.strongs.items player.old.weaks.items }
    ensures plays { Plays domain.now player.new.seat player.new.strongs.items
        player.new.weaks.items }
    ensures notes { player.new.seat.view.core.notes ≡ player.old.seat.view.core.notes }
{
    let Some(slot) = weak_at(domain, player, index) else {
        return Said::Never;
    };
    Said::Number(weak_count(domain, &mut player.seat, slot))
}
