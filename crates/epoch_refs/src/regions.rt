//! Regions: in between, what is looked at isn't destroyed.
ghost use Rattle.std.specs.Prelude.{◌≡◌};
ghost use Rattle.epoch_domain.specs.Calls.{IsSameView, Steps, same_view};
ghost use Rattle.epoch_domain.specs.epoch_core.declared.act.EpochAct.TheVariants as act;
ghost use Rattle.epoch_domain.specs.epoch_core.declared.outcome.EpochOutcome.TheVariants as outcome;
ghost use Rattle.epoch_domain.specs.epoch_core.Views.{IsInside};
ghost use Rattle.epoch_refs.specs.Calls.{Enters};
ghost use Rattle.epoch_refs.specs.Walks.{IsAtRest};

use epoch_domain::{EpochDomain, EpochSeat, Protocol};

/// Opens a region. From here to the exit no slot that the seat looks at is destroyed. Two events: the epoch is read,
/// and it and one are stored in the seat's region word. A region that stays open keeps everything that is given up
/// later, by whomever, from being destroyed.
pub fn enter<P: Protocol>(domain: &EpochDomain<P>, seat: &mut EpochSeat<P>)
    requires rest { IsAtRest domain.now seat.old }
    requires outside { seat.old.view.core.number ≡ 0 }
    ensures entered { Enters P.Kind.fits domain.now seat.old seat.new }
    ensures rest { IsAtRest domain.now seat.new }
{
    domain.open_region(seat);
}

/// Closes the region: the seat forgets what it has seen in it. One event.
pub fn exit<P: Protocol>(domain: &EpochDomain<P>, seat: &mut EpochSeat<P>)
    requires rest { IsAtRest domain.now seat.old }
    requires inside { IsInside seat.old.view.core }
    ensures exited { Steps P.Kind.fits domain.now same_view IsSameView act.Exit seat.old seat.new
        outcome.Plain }
    ensures rest { IsAtRest domain.now seat.new }
{
    domain.exit(seat);
}
