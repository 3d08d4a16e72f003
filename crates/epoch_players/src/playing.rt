//! Scripts that players play, act by act.
ghost use Rattle.epoch_players.specs.Plays.{Plays};

use crate::acts::{Act, Said};
use crate::counting_acts::{copy, give_up, make};
use crate::flush_acts::{ask, flush};
use crate::place_acts::{clear, empty, replace, store};
use crate::player::{Objects, Player};
use crate::region_acts::{enter, exit, keep, look, read, read_seen};
use epoch_refs::EpochDomain;

/// Which of two players: the one with seat 0, or the one with seat 1.
#[derive(Clone, Copy, PartialEq, Eq, Debug, Drop)]
pub enum Who {
    First,
    Second,
}

/// Who makes an act, and what that is to answer.
pub type Line = (Who, Act, Said);

/// Makes an act.
pub fn play(domain: &EpochDomain<Objects>, player: &mut Player, act: Act) -> Said
    requires { Plays domain.now player.old.seat player.old.strongs.items player.old.seen.items
        player.old.inside }
    ensures { Plays domain.now player.new.seat player.new.strongs.items player.new.seen.items
        player.new.inside }
{
    match act {
        Act::Enter => enter(domain, player),
        Act::Exit => exit(domain, player),
        Act::Make(weight) => make(domain, player, weight),
        Act::Copy(index) => copy(domain, player, index),
        Act::Keep(index) => keep(domain, player, index),
        Act::Drop => give_up(domain, player),
        Act::Read(index) => read(domain, player, index),
        Act::ReadSeen(index) => read_seen(domain, player, index),
        Act::Look(spot) => look(domain, player, spot),
        Act::Store(spot) => store(domain, player, spot),
        Act::Clear(spot) => clear(domain, player, spot),
        Act::Replace(spot, expected) => replace(domain, player, spot, expected),
        Act::Empty(spot, expected) => empty(domain, player, spot, expected),
        Act::Flush => flush(domain, player),
        _ => ask(domain, player, act),
    }
}

/// Makes an act once more where there was no memory for it: nothing may have changed then, so it is to answer the same
/// as if it had not been tried before.
pub fn play_on(domain: &EpochDomain<Objects>, player: &mut Player, act: Act) -> Said
    requires { Plays domain.now player.old.seat player.old.strongs.items player.old.seen.items
        player.old.inside }
    ensures { Plays domain.now player.new.seat player.new.strongs.items player.new.seen.items
        player.new.inside }
{
    match play(domain, player, act) {
        Said::NoMemory => play(domain, player, act),
        answer => answer,
    }
}

/// Plays a script, and tells which act was the first to answer something else than stands beside it, and what.
pub fn run(
    domain: &EpochDomain<Objects>,
    first: &mut Player,
    second: &mut Player,
    script: &[Line],
) -> Option<(usize, Said)>
    requires first { Plays domain.now first.old.seat first.old.strongs.items
        first.old.seen.items first.old.inside }
    requires second { Plays domain.now second.old.seat second.old.strongs.items
        second.old.seen.items second.old.inside }
    ensures first { Plays domain.now first.new.seat first.new.strongs.items
        first.new.seen.items first.new.inside }
    ensures second { Plays domain.now second.new.seat second.new.strongs.items
        second.new.seen.items second.new.inside }
{
    for (index, (who, act, expected)) in script.iter().enumerate() {
        let answer = match who {
            Who::First => play_on(domain, first, *act),
            Who::Second => play_on(domain, second, *act),
        };
        if *expected != Said::Whatever && answer != *expected {
            return Some((index, answer));
        }
    }
    None
}
