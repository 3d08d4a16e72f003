//! Turns that look at cells in a region. A loop ends at the first cell that holds null.
ghost use Rattle.std.specs.Prelude.{◌≡◌, ◌<◌, ◌^◌, true};
ghost use Rattle.epoch_refs.specs.epoch_core.Views.{IsInside};
ghost use Rattle.epoch_refs.specs.Walks.{IsAtRest, IsFree};
ghost use Rattle.region_turns.specs.Visits.{HasLooked, HasSeen, HasVisited, HasVisitedEach};

use crate::opening::CELLS;
use epoch_refs::{AnyStep, EpochDomain, EpochSeat, Place, e_look, e_read, enter, exit};
use turn_loops::Objects;

/// Looks at so many cells in a region of its own, in each turn from the next cell on, and reads a word of what each
/// holds. Whether it made all turns: not where a cell held null.
pub(crate) fn look_turns(
    domain: &EpochDomain<Objects>,
    seat: &mut EpochSeat<Objects>,
    thread: u32,
    turns: u32,
    looks: u32,
) -> bool
    requires free { IsFree domain.now seat.old }
    requires cells { domain.now.shape.cells ≡ 16 }
    ensures turns { result ≡ true
        → HasVisitedEach thread looks turns seat.old.view.core seat.new.view.core }
    ensures free { IsFree domain.now seat.new }
{
    for turn in 0..turns {
        if !look_turn(domain, seat, u64::from(thread) + u64::from(turn), looks) {
            return false;
        }
    }
    true
}

/// Looks at so many cells in a region, from one on. Whether none of them held null.
fn look_turn(
    domain: &EpochDomain<Objects>,
    seat: &mut EpochSeat<Objects>,
    first: u64,
    looks: u32,
) -> bool
    requires free { IsFree domain.now seat.old }
    requires cells { domain.now.shape.cells ≡ 16 }
    requires low { first < 2 ^ 33 }
    ensures turn { result ≡ true
        → HasVisited first looks seat.old.view.core seat.new.view.core }
    ensures free { IsFree domain.now seat.new }
{
    enter(domain, seat);
    let all = look_all(domain, seat, first, looks);
    exit(domain, seat);
    all
}

/// Looks at so many cells in an open region, from one on, and reads a word of what each holds. Whether none of them
/// held null.
fn look_all(
    domain: &EpochDomain<Objects>,
    seat: &mut EpochSeat<Objects>,
    first: u64,
    looks: u32,
) -> bool
    requires rest { IsAtRest domain.now seat.old }
    requires inside { IsInside seat.old.view.core }
    requires cells { domain.now.shape.cells ≡ 16 }
    requires low { first < 2 ^ 33 }
    ensures looked { result ≡ true
        → HasLooked first looks seat.old.view.core seat.new.view.core }
    ensures inside { IsInside seat.new.view.core }
    ensures rest { IsAtRest domain.now seat.new }
{
    for number in 0..looks {
        let cell = (first + u64::from(number)) % u64::from(CELLS);
        if !look_once(domain, seat, cell as u32) {
            return false;
        }
    }
    true
}

/// Looks at a cell, and reads word 0 of what it holds. Whether that wasn't null.
fn look_once(domain: &EpochDomain<Objects>, seat: &mut EpochSeat<Objects>, cell: u32) -> bool
    requires rest { IsAtRest domain.now seat.old }
    requires inside { IsInside seat.old.view.core }
    requires cell { cell < domain.now.shape.cells }
    ensures seen { result ≡ true → HasSeen cell seat.old.view.core seat.new.view.core }
    ensures inside { IsInside seat.new.view.core }
    ensures rest { IsAtRest domain.now seat.new }
{
    let Some(found) = e_look(domain, seat, Place::Cell(cell), AnyStep) else {
        return false;
    };
    e_read(domain, seat, found, 0);
    true
}
