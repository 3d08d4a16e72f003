//! Acts that pay what is pending, and what a player may ask about itself.
ghost use Rattle.std.specs.Prelude.{◌≡◌};
ghost use Rattle.epoch_players.specs.Plays.{Plays};

use crate::acts::{Act, Said};
use crate::player::{FirstWord, Objects, Player};
use deleter::Deleter;
use epoch_refs;
use epoch_refs::{EpochDomain, waiting};

pub fn flush(domain: &EpochDomain<Objects>, player: &mut Player) -> Said
    requires { Plays domain.now player.old.seat player.old.strongs.items player.old.seen.items
        player.old.inside }
    ensures plays { Plays domain.now player.new.seat player.new.strongs.items
        player.new.seen.items player.new.inside }
    ensures inside { player.new.inside ≡ player.old.inside }
{
    let deleter: Deleter<FirstWord, _> = Deleter::keep(|payload: &[u64; 16]| payload[0]);
    match epoch_refs::flush(player.alloc, domain, &mut player.seat, &deleter) {
        Ok(work) => Said::Work(work.epoch, work.paid, work.weight),
        Err(_) => Said::NoMemory,
    }
}

/// Asks something about the player.
pub fn ask(domain: &EpochDomain<Objects>, player: &Player, act: Act) -> Said
    requires { Plays domain.now player.now.seat player.now.strongs.items player.now.seen.items
        player.now.inside }
{
    match act {
        Act::Waiting => Said::Number(waiting(domain, &player.seat)),
        Act::Adds => Said::Number(domain.adds(&player.seat)),
        Act::Makes => Said::Number(domain.makes(&player.seat)),
        _ => Said::Never,
    }
}
