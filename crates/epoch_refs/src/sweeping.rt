//! The first part of a flush: the epoch, the region words, and the next epoch.
ghost use Rattle.std.specs.Prelude.{◌≡◌, ◌≤◌, true, List, ℕ, length};
ghost use Rattle.epoch_domain.specs.epoch_core.declared.view.EpochPhase.TheVariants as phase;
ghost use Rattle.epoch_domain.specs.epoch_core.Runs.{IsShape};
ghost use Rattle.epoch_domain.specs.Calls.{IsOf};
ghost use Rattle.epoch_refs.specs.Flushing.{Scans, Sweeps};
ghost use Rattle.epoch_refs.specs.Walks.{IsAtRest};

use epoch_domain::{EpochDomain, EpochSeat, Protocol};

/// Reads each region word.
fn scan_all<P: Protocol>(domain: &EpochDomain<P>, seat: &mut EpochSeat<P>)
    requires seat { IsOf domain.now seat.old }
    requires shape { IsShape domain.now.shape }
    requires began { (e : ℕ)
        × (seat.old.view.core.phase ≡ phase.Scan (record { epoch = e; passed = 0; fit = true })) }
    ensures scanned { (words : List ℕ) × (e : ℕ)
        × (seat.old.view.core.phase ≡ phase.Scan (record { epoch = e; passed = 0; fit = true }))
        × (length words ≡ domain.now.shape.seats)
        × Scans P.Kind.fits domain.now words e seat.old seat.new }
    ensures seat { IsOf domain.now seat.new }
    ensures room { seat.old.room ≤ seat.new.room }
{
    for _seat in 0..domain.shape().seats {
        domain.scan(seat);
    }
}

/// Reads the epoch and each region word, and makes the epoch one later where each word is 0 or one more than it, and it
/// isn't the last one, unless it has changed meanwhile. Two events more than there are seats, at most.
pub(crate) fn sweep<P: Protocol>(domain: &EpochDomain<P>, seat: &mut EpochSeat<P>)
    requires rest { IsAtRest domain.now seat.old }
    ensures swept { Sweeps P.Kind.fits domain.now seat.old seat.new }
    ensures room { seat.old.room ≤ seat.new.room }
    ensures rest { IsAtRest domain.now seat.new }
{
    domain.begin_flush(seat);
    scan_all(domain, seat);
    if !domain.is_idle(seat) {
        domain.advance(seat);
    }
}
