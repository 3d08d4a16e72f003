//! How players give up what they have and leave, and what is left then.
ghost use Rattle.std.specs.Prelude.{◌≡◌};
ghost use Rattle.epoch_refs.specs.Walks.{IsFree};
ghost use Rattle.epoch_players.specs.Plays.{Plays};

use crate::acts::{Act, Said, Spot};
use crate::counting_acts::give_up;
use crate::player::{Objects, Player};
use crate::playing::play_on;
use crate::region_acts::exit;
use deleter::{Heap, SlotImage, ZERO};
use epoch_refs::{EpochDomain, EpochSeat};

/// More flushes than any test needs until nothing waits.
const MOST_FLUSHES: u32 = 2_000;

/// The seat, outside a region, with the references that it has.
pub fn hand_back(domain: &EpochDomain<Objects>, mut player: Player) -> EpochSeat<Objects>
    requires { Plays domain.now player.seat player.strongs.items player.seen.items player.inside }
    ensures { IsFree domain.now result }
{
    if player.inside {
        exit(domain, &mut player);
    }
    let Player { seat, .. } = player;
    seat
}

/// The seat, outside a region, once all references on the list have been given up.
pub fn give_back(domain: &EpochDomain<Objects>, mut player: Player) -> EpochSeat<Objects>
    requires { Plays domain.now player.seat player.strongs.items player.seen.items player.inside }
    ensures { IsFree domain.now result }
{
    for _reference in 0..player.strongs.len() {
        give_up(domain, &mut player);
    }
    hand_back(domain, player)
}

/// Leaves all cells null.
pub fn clear_all(domain: &EpochDomain<Objects>, player: &mut Player)
    requires { Plays domain.now player.old.seat player.old.strongs.items player.old.seen.items
        player.old.inside }
    ensures { Plays domain.now player.new.seat player.new.strongs.items player.new.seen.items
        player.new.inside }
{
    for cell in 0..domain.shape().cells {
        play_on(domain, player, Act::Clear(Spot::Cell(cell)));
    }
}

/// Flushes until nothing of the player's waits. What was destroyed weighed.
pub fn flush_all(domain: &EpochDomain<Objects>, player: &mut Player) -> u64
    requires { Plays domain.now player.old.seat player.old.strongs.items player.old.seen.items
        player.old.inside }
    ensures { Plays domain.now player.new.seat player.new.strongs.items player.new.seen.items
        player.new.inside }
{
    let mut all: u64 = 0;
    for _flush in 0..MOST_FLUSHES {
        if play_on(domain, player, Act::Waiting) == Said::Number(0) {
            break;
        }
        if let Said::Work(_, _, weight) = play_on(domain, player, Act::Flush) {
            all = all.saturating_add(weight);
        }
    }
    all
}

/// How many slots of a heap aren't free.
pub fn taken(heap: &Heap) -> usize {
    heap.slots.iter().filter(|slot| slot.strong != ZERO).count()
}

/// Whether a heap has nothing: no references, no contents of places, nothing deferred.
pub fn is_empty(heap: &Heap) -> bool {
    let null = |word: &u64| *word == 0;
    let free = |slot: &SlotImage| {
        (slot.strong, slot.weak) == (ZERO, 0) && slot.fields == [0, 0]
    };
    heap.deferred.is_empty() && heap.cells.iter().all(null) && heap.slots.iter().all(free)
}
