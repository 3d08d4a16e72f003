//! A seat with the references that it has.
ghost use Rattle.std.specs.Prelude.{◌≡◌, ◌<◌, ◌≤◌, ◌^◌, ◌++◌, ◌∷◌, [], IfSome, None, slice_index};
ghost use Rattle.control_word.specs.plain_state.Lists.{times};
ghost use Rattle.handle_tests.specs.Plays.{Plays};

use crate::acts::Said;
use control_word::{Domain, NoLaw, PayloadKind, Seat, SlotId, Strong, Weak};
use std::alloc::Global;

/// Payloads that weigh their first word.
pub(crate) struct FirstWord;

impl PayloadKind for FirstWord {
    ghost fits = { λ words. slice_index words 0 ≤ 2 ^ 32 };

    ghost weight = { λ words. slice_index words 0 };

    fn weigh(payload: &[u64; 16]) -> u64 {
        payload[0]
    }

    ghost bounded = { λ words fits. fits };
}

pub(crate) type Objects = NoLaw<FirstWord>;

/// A seat, and the slots of the strong and the weak references that it has, one for each.
#[derive(Drop)]
pub(crate) struct Player {
    pub(crate) alloc: Global,
    pub(crate) seat: Seat<Objects>,
    pub(crate) strongs: Vec<SlotId>,
    pub(crate) weaks: Vec<SlotId>,
}

/// The slot of a strong reference, by its number.
pub(crate) fn strong_at(domain: &Domain<Objects>, player: &Player, index: usize) -> Option<SlotId>
    requires { Plays domain.now player.now.seat player.now.strongs.items player.now.weaks.items }
    ensures { IfSome result (λ s. 0 < times s player.now.seat.view.core.owned) }
{
    if index < player.strongs.len() {
        return Some(player.strongs[index]);
    }
    None
}

/// The slot of a weak reference, by its number.
pub(crate) fn weak_at(domain: &Domain<Objects>, player: &Player, index: usize) -> Option<SlotId>
    requires { Plays domain.now player.now.seat player.now.strongs.items player.now.weaks.items }
    ensures { IfSome result (λ s. 0 < times s player.now.seat.view.core.weaks) }
{
    if index < player.weaks.len() {
        return Some(player.weaks[index]);
    }
    None
}

/// Takes the last strong reference off the list; the seat has it still.
pub(crate) fn take_strong(domain: &Domain<Objects>, player: &mut Player) -> Option<Strong>
    requires { Plays domain.now player.old.seat player.old.strongs.items player.old.weaks.items }
    ensures seat { player.new.seat ≡ player.old.seat }
    ensures taken { IfSome result (λ strong. Plays domain.now player.new.seat
        (player.new.strongs.items ++ strong.slot ∷ []) player.new.weaks.items) }
    ensures owned { IfSome result (λ strong.
        0 < times strong.slot player.new.seat.view.core.owned) }
    ensures none { result ≡ None → Plays domain.now player.new.seat player.new.strongs.items
        player.new.weaks.items }
{
    let slot = player.strongs.pop()?;
    Some(Strong::of(slot))
}

/// The same with a weak one.
pub(crate) fn take_weak(domain: &Domain<Objects>, player: &mut Player) -> Option<Weak>
    requires { Plays domain.now player.old.seat player.old.strongs.items player.old.weaks.items }
    ensures seat { player.new.seat ≡ player.old.seat }
    ensures taken { IfSome result (λ weak. Plays domain.now player.new.seat
        player.new.strongs.items (player.new.weaks.items ++ weak.slot ∷ [])) }
    ensures owned { IfSome result (λ weak.
        0 < times weak.slot player.new.seat.view.core.weaks) }
    ensures none { result ≡ None → Plays domain.now player.new.seat player.new.strongs.items
        player.new.weaks.items }
{
    let slot = player.weaks.pop()?;
    Some(Weak::of(slot))
}

/// Puts a strong reference that the seat has on the list. Without memory the seat has it still, and nobody gives it up.
pub(crate) fn note_strong(domain: &Domain<Objects>, player: &mut Player, strong: Strong) -> Said
    requires { Plays domain.now player.old.seat (player.old.strongs.items ++ strong.slot ∷ [])
        player.old.weaks.items }
    ensures seat { player.new.seat ≡ player.old.seat }
    ensures plays { Plays domain.now player.new.seat player.new.strongs.items
        player.new.weaks.items }
{
    let slot = strong.slot();
    match player.strongs.push(slot) {
        Ok(()) => Said::Slot(slot.0),
        Err(_) => Said::NoMemory,
    }
}

/// The same with a weak one.
pub(crate) fn note_weak(domain: &Domain<Objects>, player: &mut Player, weak: Weak) -> Said
    requires { Plays domain.now player.old.seat player.old.strongs.items
        (player.old.weaks.items ++ weak.slot ∷ []) }
    ensures seat { player.new.seat ≡ player.old.seat }
    ensures plays { Plays domain.now player.new.seat player.new.strongs.items
        player.new.weaks.items }
{
    let slot = weak.slot();
    match player.weaks.push(slot) {
        Ok(()) => Said::Slot(slot.0),
        Err(_) => Said::NoMemory,
    }
}
