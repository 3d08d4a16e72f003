//! Acts that make objects, and that count references or give them up.
ghost use Rattle.std.specs.Prelude.{◌≡◌, ◌≤◌, ◌^◌, slice_index};
ghost use Rattle.epoch_players.specs.Plays.{Plays};

use crate::acts::Said;
use crate::player::{Objects, Player, note_strong, strong_at, take_strong};
use epoch_refs::{AnyStep, EpochDomain, MakeError, Spent, Strong, e_copy, e_drop, e_make};

/// The payload of an object of this weight.
fn payload_of(weight: u32) -> [u64; 16]
    ensures { slice_index result 0 ≤ 2 ^ 32 }
{
    [u64::from(weight); 16]
}

pub fn make(domain: &EpochDomain<Objects>, player: &mut Player, weight: u32) -> Said
    requires { Plays domain.now player.old.seat player.old.strongs.items player.old.seen.items
        player.old.inside }
    ensures { Plays domain.now player.new.seat player.new.strongs.items player.new.seen.items
        player.new.inside }
{
    let payload = payload_of(weight);
    match e_make(domain, &mut player.seat, &payload, AnyStep) {
        Ok(strong) => note_strong(domain, player, strong),
        Err(MakeError::MakesSpent) => Said::MakesSpent,
        Err(MakeError::AddsSpent) => Said::AddsSpent,
        Err(MakeError::Full) => Said::Full,
    }
}

pub fn copy(domain: &EpochDomain<Objects>, player: &mut Player, index: usize) -> Said
    requires { Plays domain.now player.old.seat player.old.strongs.items player.old.seen.items
        player.old.inside }
    ensures { Plays domain.now player.new.seat player.new.strongs.items player.new.seen.items
        player.new.inside }
{
    let Some(slot) = strong_at(domain, player, index) else {
        return Said::Never;
    };
    match e_copy(domain, &mut player.seat, &Strong::of(slot)) {
        Ok(more) => note_strong(domain, player, more),
        Err(Spent) => Said::Spent,
    }
}

pub fn give_up(domain: &EpochDomain<Objects>, player: &mut Player) -> Said
    requires { Plays domain.now player.old.seat player.old.strongs.items player.old.seen.items
        player.old.inside }
    ensures plays { Plays domain.now player.new.seat player.new.strongs.items
        player.new.seen.items player.new.inside }
    ensures inside { player.new.inside ≡ player.old.inside }
{
    let Some(strong) = take_strong(domain, player) else {
        return Said::Never;
    };
    e_drop(domain, &mut player.seat, strong);
    Said::Done
}
