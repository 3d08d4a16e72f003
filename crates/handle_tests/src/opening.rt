//! Domains that are opened, with their seats, and what becomes of the seats.
ghost use Rattle.std.specs.Prelude.{◌≡◌, ◌<◌, All, IfOk, IfSome, OnOk, length, slice_index_or};
ghost use Rattle.control_word.specs.acquire_retire.Seats.{SeatState};
ghost use Rattle.handle_tests.specs.Plays.{IsFree, Plays};

use crate::counting_acts::{give_up, give_up_weak};
use crate::player::{Objects, Player};
use crate::sums::ZERO;
use control_word::{Domain, Heap, OpenError, Quota, Seat, Shape, SlotImage, open_granted};
use std::alloc::Global;

/// As much as a seat may ever have.
pub(crate) const WIDE: Quota = Quota {
    makes: 1 << 40,
    adds: 1 << 40,
};

/// A domain, its seat 0, and its other seats.
pub(crate) struct Opened {
    pub(crate) domain: Domain<Objects>,
    pub(crate) root: Seat<Objects>,
    pub(crate) others: Vec<Seat<Objects>>,
}

fn open_seats(
    alloc: Global,
    shape: Shape,
    quotas: &[Quota],
    grants: &[u64],
) -> Result<(Domain<Objects>, Vec<Seat<Objects>>), OpenError>
    ensures free { IfOk result (λ opened. All (IsFree opened.0) opened.1.items) }
    ensures first { IfOk result (λ opened. (d : SeatState (Unit {0}))
        → (slice_index_or opened.1.items 0 d).view.core.seat ≡ 0) }
    ensures some { IfOk result (λ opened. 0 < length opened.1.items) }
{
    let opened = open_granted(alloc, shape, quotas, grants, Objects::new())?;
    Ok(opened)
}

/// A domain, with seat 0 by itself.
pub(crate) fn open(
    alloc: Global,
    shape: Shape,
    quotas: &[Quota],
    grants: &[u64],
) -> Result<Opened, OpenError>
    ensures root { IfOk result (λ opened. IsFree opened.domain opened.root) }
    ensures first { IfOk result (λ opened. opened.root.view.core.seat ≡ 0) }
    ensures others { IfOk result (λ opened. All (IsFree opened.domain) opened.others.items) }
{
    let (domain, mut others) = open_seats(alloc, shape, quotas, grants)?;
    let root = others.remove(0);
    Ok(Opened {
        domain,
        root,
        others,
    })
}

/// The last of these seats.
pub(crate) fn take_last(
    domain: &Domain<Objects>,
    seats: &mut Vec<Seat<Objects>>,
) -> Option<Seat<Objects>>
    requires { All (IsFree domain.now) seats.old.items }
    ensures seats { All (IsFree domain.now) seats.new.items }
    ensures last { IfSome result (IsFree domain.now) }
{
    seats.pop()
}

/// A player with this seat, and without references.
pub(crate) fn player_of(alloc: Global, domain: &Domain<Objects>, seat: Seat<Objects>) -> Player
    requires { IsFree domain.now seat }
    ensures plays { Plays domain.now result.seat result.strongs.items result.weaks.items }
    ensures seat { result.seat ≡ seat }
{
    Player {
        alloc,
        seat,
        strongs: Vec::new(alloc),
        weaks: Vec::new(alloc),
    }
}

/// Gives up all references on the lists.
pub(crate) fn give_up_all(domain: &Domain<Objects>, player: &mut Player)
    requires { Plays domain.now player.old.seat player.old.strongs.items player.old.weaks.items }
    ensures plays { Plays domain.now player.new.seat player.new.strongs.items
        player.new.weaks.items }
    ensures notes { player.new.seat.view.core.notes ≡ player.old.seat.view.core.notes }
{
    for _reference in 0..player.strongs.len() {
        give_up(domain, player);
    }
    for _reference in 0..player.weaks.len() {
        give_up_weak(domain, player);
    }
}

/// Whether a heap has nothing: no references, no contents of places, nothing deferred.
pub(crate) fn is_empty(heap: &Heap) -> bool {
    let null = |word: &u64| *word == 0;
    let free = |slot: &SlotImage| {
        (slot.strong, slot.weak) == (ZERO, 0) && slot.fields == [0, 0] && slot.weak_field == 0
    };
    heap.deferred.is_empty()
        && heap.cells.iter().all(null)
        && heap.weak_cells.iter().all(null)
        && heap.slots.iter().all(free)
}
