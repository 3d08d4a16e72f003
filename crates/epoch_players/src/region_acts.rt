//! Acts of regions: they are opened and closed, and what they see is read and kept.
ghost use Rattle.std.specs.Prelude.{◌≡◌, false};
ghost use Rattle.epoch_refs.specs.epoch_core.Views.{Holds};
ghost use Rattle.epoch_players.specs.Plays.{Plays};

use crate::acts::{Said, Spot};
use crate::place_acts::place_of;
use crate::player::{Objects, Player, note_seen, note_strong, seen_at, strong_at};
use epoch_refs;
use epoch_refs::{AnyStep, EpochDomain, SlotId, Spent, e_keep, e_look, e_read};

pub fn enter(domain: &EpochDomain<Objects>, player: &mut Player) -> Said
    requires { Plays domain.now player.old.seat player.old.strongs.items player.old.seen.items
        player.old.inside }
    ensures { Plays domain.now player.new.seat player.new.strongs.items player.new.seen.items
        player.new.inside }
{
    if player.inside {
        return Said::Never;
    }
    player.seen.clear();
    epoch_refs::enter(domain, &mut player.seat);
    player.inside = true;
    Said::Done
}

pub fn exit(domain: &EpochDomain<Objects>, player: &mut Player) -> Said
    requires { Plays domain.now player.old.seat player.old.strongs.items player.old.seen.items
        player.old.inside }
    ensures plays { Plays domain.now player.new.seat player.new.strongs.items
        player.new.seen.items player.new.inside }
    ensures outside { player.new.inside ≡ false }
{
    if !player.inside {
        return Said::Never;
    }
    player.seen.clear();
    epoch_refs::exit(domain, &mut player.seat);
    player.inside = false;
    Said::Done
}

pub fn look(domain: &EpochDomain<Objects>, player: &mut Player, spot: Spot) -> Said
    requires { Plays domain.now player.old.seat player.old.strongs.items player.old.seen.items
        player.old.inside }
    ensures { Plays domain.now player.new.seat player.new.strongs.items player.new.seen.items
        player.new.inside }
{
    if !player.inside {
        return Said::Never;
    }
    let Some(place) = place_of(domain, player, spot) else {
        return Said::Never;
    };
    match e_look(domain, &mut player.seat, place, AnyStep) {
        Some(slot) => note_seen(domain, player, slot),
        None => Said::Null,
    }
}

pub fn keep(domain: &EpochDomain<Objects>, player: &mut Player, index: usize) -> Said
    requires { Plays domain.now player.old.seat player.old.strongs.items player.old.seen.items
        player.old.inside }
    ensures { Plays domain.now player.new.seat player.new.strongs.items player.new.seen.items
        player.new.inside }
{
    let Some(slot) = seen_at(domain, player, index) else {
        return Said::Never;
    };
    match e_keep(domain, &mut player.seat, slot) {
        Ok(strong) => note_strong(domain, player, strong),
        Err(Spent) => Said::Spent,
    }
}

/// The word that all payload words of a slot are.
fn read_all(domain: &EpochDomain<Objects>, player: &mut Player, slot: SlotId) -> Said
    requires plays { Plays domain.now player.old.seat player.old.strongs.items
        player.old.seen.items player.old.inside }
    requires held { Holds player.old.seat.view.core slot }
    ensures { Plays domain.now player.new.seat player.new.strongs.items player.new.seen.items
        player.new.inside }
{
    let first = e_read(domain, &mut player.seat, slot, 0);
    for word in 1..16u32 {
        if e_read(domain, &mut player.seat, slot, word) != first {
            return Said::Torn;
        }
    }
    Said::Number(first)
}

pub fn read(domain: &EpochDomain<Objects>, player: &mut Player, index: usize) -> Said
    requires { Plays domain.now player.old.seat player.old.strongs.items player.old.seen.items
        player.old.inside }
    ensures { Plays domain.now player.new.seat player.new.strongs.items player.new.seen.items
        player.new.inside }
{
    match strong_at(domain, player, index) {
        Some(slot) => read_all(domain, player, slot),
        None => Said::Never,
    }
}

pub fn read_seen(domain: &EpochDomain<Objects>, player: &mut Player, index: usize) -> Said
    requires { Plays domain.now player.old.seat player.old.strongs.items player.old.seen.items
        player.old.inside }
    ensures { Plays domain.now player.new.seat player.new.strongs.items player.new.seen.items
        player.new.inside }
{
    match seen_at(domain, player, index) {
        Some(slot) => read_all(domain, player, slot),
        None => Said::Never,
    }
}
