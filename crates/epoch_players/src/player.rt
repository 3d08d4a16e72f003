//! A seat with the references that it has, and with what its region has seen.
ghost use Rattle.std.specs.Prelude.{◌≡◌, ◌<◌, ◌≤◌, ◌^◌, ◌++◌, ◌∷◌, [], IfSome, None, slice_index};
ghost use Rattle.epoch_refs.specs.plain_protocol.plain_state.Lists.{times};
ghost use Rattle.epoch_players.specs.Plays.{Plays};

use crate::acts::Said;
use deleter::PayloadKind;
use epoch_refs::{EpochDomain, EpochSeat, NoLaw, SlotId, Strong};
use std::alloc::Global;

/// Payloads that weigh their first word.
pub struct FirstWord;

impl PayloadKind for FirstWord {
    ghost fits = { λ words. slice_index words 0 ≤ 2 ^ 32 };

    ghost weight = { λ words. slice_index words 0 };

    fn weigh(payload: &[u64; 16]) -> u64 {
        payload[0]
    }

    ghost bounded = { λ words fits. fits };
}

pub type Objects = NoLaw<FirstWord>;

/// A seat, the slots of the references that it has, one for each, whether its region is open, and which slots that has
/// seen, each as often as it was found.
#[derive(Drop)]
pub struct Player {
    pub alloc: Global,
    pub seat: EpochSeat<Objects>,
    pub strongs: Vec<SlotId>,
    pub inside: bool,
    pub seen: Vec<SlotId>,
}

/// The slot of a reference, by its number.
pub fn strong_at(domain: &EpochDomain<Objects>, player: &Player, index: usize) -> Option<SlotId>
    requires { Plays domain.now player.now.seat player.now.strongs.items player.now.seen.items
        player.now.inside }
    ensures { IfSome result (λ s. 0 < times s player.now.seat.view.core.owned) }
{
    if index < player.strongs.len() {
        return Some(player.strongs[index]);
    }
    None
}

/// A slot that the player's region has seen, by its number.
pub fn seen_at(domain: &EpochDomain<Objects>, player: &Player, index: usize) -> Option<SlotId>
    requires { Plays domain.now player.now.seat player.now.strongs.items player.now.seen.items
        player.now.inside }
    ensures { IfSome result (λ s. 0 < times s player.now.seat.view.core.seen) }
{
    if index < player.seen.len() {
        return Some(player.seen[index]);
    }
    None
}

/// Takes the last reference off the list; the seat has it still.
pub fn take_strong(domain: &EpochDomain<Objects>, player: &mut Player) -> Option<Strong>
    requires { Plays domain.now player.old.seat player.old.strongs.items player.old.seen.items
        player.old.inside }
    ensures seat { player.new.seat ≡ player.old.seat }
    ensures taken { IfSome result (λ strong. Plays domain.now player.new.seat
        (player.new.strongs.items ++ strong.slot ∷ []) player.new.seen.items
        player.new.inside) }
    ensures owned { IfSome result (λ strong.
        0 < times strong.slot player.new.seat.view.core.owned) }
    ensures none { result ≡ None → Plays domain.now player.new.seat player.new.strongs.items
        player.new.seen.items player.new.inside }
{
    let slot = player.strongs.pop()?;
    Some(Strong::of(slot))
}

/// Puts a reference that the seat has on the list. Without memory the seat has it still, and nobody gives it up.
pub fn note_strong(domain: &EpochDomain<Objects>, player: &mut Player, strong: Strong) -> Said
    requires { Plays domain.now player.old.seat (player.old.strongs.items ++ strong.slot ∷ [])
        player.old.seen.items player.old.inside }
    ensures { Plays domain.now player.new.seat player.new.strongs.items player.new.seen.items
        player.new.inside }
{
    let slot = strong.slot();
    match player.strongs.push(slot) {
        Ok(()) => Said::Slot(slot.0),
        Err(_) => Said::NoMemory,
    }
}

/// Puts a slot that the seat's region has seen on the list.
pub fn note_seen(domain: &EpochDomain<Objects>, player: &mut Player, slot: SlotId) -> Said
    requires { Plays domain.now player.old.seat player.old.strongs.items
        (player.old.seen.items ++ slot ∷ []) player.old.inside }
    ensures { Plays domain.now player.new.seat player.new.strongs.items player.new.seen.items
        player.new.inside }
{
    match player.seen.push(slot) {
        Ok(()) => Said::Slot(slot.0),
        Err(_) => Said::NoMemory,
    }
}
