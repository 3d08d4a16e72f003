//! Turns of a seat.
ghost use Rattle.std.specs.Prelude.{◌≤◌};
ghost use Rattle.seat_life.specs.Free.{IsFree};
ghost use Rattle.seat_life.specs.Turns.{KeepsFree};

use domain_audit::{Domain, Protocol, Seat};

/// Makes so many turns, each of which leaves the seat free, and answers how many of them answered true. Each turn is
/// told its number, from 0 on.
pub fn repeat<P: Protocol, F: Fn(&mut Seat<P>, u64) -> bool>(
    domain: &Domain<P>,
    seat: &mut Seat<P>,
    turns: u64,
    turn: &F,
) -> u64
    requires free { IsFree domain.now seat.old }
    requires keeps { KeepsFree F.Fn domain.now turns turn.now }
    ensures free { IsFree domain.now seat.new }
    ensures count { result ≤ turns }
{
    // The turns bring the domain with them.
    let _ = domain;
    let mut count = 0;
    for number in 0..turns {
        if turn(seat, number) {
            count += 1;
        }
    }
    count
}
