//! What flushes pay where the seat is alone.
ghost use Rattle.std.specs.Prelude.{ℕ, ◌+◌, ◌<◌};
ghost use Rattle.epoch_core.specs.Words.{last_epoch};
ghost use Rattle.epoch_refs.specs.epoch_domain.Domains.{DomainState};
ghost use Rattle.epoch_refs.specs.epoch_domain.Seats.{SeatState};
ghost use Rattle.epoch_refs.specs.declared.flushing.EpochWork.{EpochWork};
ghost use Rattle.epoch_refs.specs.Flushing.{Flushes};
ghost use Rattle.epoch_settling.specs.Alone.{AreLater, AreNoLater, HasAdvanced, KnowsEpoch, MayAdvance};

use epoch_refs::Protocol;

/// A flush of a seat that is alone, in no region and in the middle of nothing makes the epoch one later, where it isn't
/// the last one, and pays each entry that is dated before the one that stood. What was pending before is dated no later
/// than that. So two flushes pay all that was pending before the first.
pub fn alone_flushes_pay<P: Protocol>()
    ensures once { (d : DomainState P) (work : EpochWork) (e : ℕ) (old new : SeatState P.View)
        → Flushes P.Kind.fits d P.Kind.weight work old new → MayAdvance e old.view
        → HasAdvanced e new.view }
    ensures dates { (d : DomainState P) (work : EpochWork) (e : ℕ) (old new : SeatState P.View)
        → Flushes P.Kind.fits d P.Kind.weight work old new → KnowsEpoch e old.view
        → AreNoLater e old.view }
    ensures twice { (d : DomainState P) (first second : EpochWork) (e : ℕ)
        (old mid new : SeatState P.View)
        → Flushes P.Kind.fits d P.Kind.weight first old mid
        → Flushes P.Kind.fits d P.Kind.weight second mid new
        → MayAdvance e old.view → e + 1 < last_epoch
        → AreNoLater e old.view × AreLater (e + 1) new.view }
{}
