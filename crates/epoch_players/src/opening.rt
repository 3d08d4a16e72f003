//! Domains that are opened, with the players of their seats.
ghost use Rattle.std.specs.Prelude.{◌≡◌, ◌<◌, [], All, IfOk, IfSome, length, slice_index_or};
ghost use Rattle.epoch_refs.specs.epoch_domain.Seats.{SeatState};
ghost use Rattle.epoch_refs.specs.Walks.{IsFree};
ghost use Rattle.epoch_players.specs.Plays.{Plays};

use crate::player::{Objects, Player};
use epoch_refs::{EpochDomain, EpochSeat, EpochShape, OpenError, Quota, SlotId, open_epoch};
use std::alloc::Global;

/// As much as a seat may ever have.
pub const WIDE: Quota = Quota {
    makes: 1 << 40,
    adds: 1 << 40,
};

/// How many references and seen slots a player has memory for from the start.
const LISTED: usize = 64;

/// A domain, its seat 0, and its other seats.
pub struct Opened {
    pub domain: EpochDomain<Objects>,
    pub root: EpochSeat<Objects>,
    pub others: Vec<EpochSeat<Objects>>,
}

fn open_seats(
    alloc: Global,
    shape: EpochShape,
    quotas: &[Quota],
) -> Result<(EpochDomain<Objects>, Vec<EpochSeat<Objects>>), OpenError>
    ensures free { IfOk result (λ opened. All (IsFree opened.0) opened.1.items) }
    ensures first { IfOk result (λ opened. (d : SeatState (Unit {0}))
        → (slice_index_or opened.1.items 0 d).view.core.seat ≡ 0) }
    ensures some { IfOk result (λ opened. 0 < length opened.1.items) }
{
    let opened = open_epoch(alloc, shape, quotas, Objects::new())?;
    Ok(opened)
}

/// A domain, with seat 0 by itself.
pub fn open(alloc: Global, shape: EpochShape, quotas: &[Quota]) -> Result<Opened, OpenError>
    ensures root { IfOk result (λ opened. IsFree opened.domain opened.root) }
    ensures first { IfOk result (λ opened. opened.root.view.core.seat ≡ 0) }
    ensures others { IfOk result (λ opened. All (IsFree opened.domain) opened.others.items) }
{
    let (domain, mut others) = open_seats(alloc, shape, quotas)?;
    let root = others.remove(0);
    Ok(Opened {
        domain,
        root,
        others,
    })
}

/// The last of these seats.
pub fn take_last(
    domain: &EpochDomain<Objects>,
    seats: &mut Vec<EpochSeat<Objects>>,
) -> Option<EpochSeat<Objects>>
    requires { All (IsFree domain.now) seats.old.items }
    ensures seats { All (IsFree domain.now) seats.new.items }
    ensures last { IfSome result (IsFree domain.now) }
{
    seats.pop()
}

/// An empty list, with memory for what a player lists if there is some.
fn new_list(alloc: Global) -> Vec<SlotId>
    ensures { result.items ≡ [] }
{
    match Vec::with_capacity(alloc, LISTED) {
        Ok(list) => list,
        Err(_) => Vec::new(alloc),
    }
}

/// A player with this seat, without references, and outside a region.
pub fn player_of(alloc: Global, domain: &EpochDomain<Objects>, seat: EpochSeat<Objects>) -> Player
    requires { IsFree domain.now seat }
    ensures plays { Plays domain.now result.seat result.strongs.items result.seen.items
        result.inside }
    ensures seat { result.seat ≡ seat }
{
    let strongs = new_list(alloc);
    let seen = new_list(alloc);
    Player {
        alloc,
        seat,
        strongs,
        inside: false,
        seen,
    }
}
