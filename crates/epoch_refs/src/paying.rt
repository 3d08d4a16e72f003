//! The second part of a flush: what is due is given up.
ghost use Rattle.std.specs.Prelude.{◌≡◌, ◌≤◌, ◌-◌, ◌^◌, List, length, min};
ghost use Rattle.epoch_domain.specs.epoch_core.declared.act.Dated.{Dated};
ghost use Rattle.epoch_domain.specs.epoch_core.declared.outcome.EpochOutcome.{EpochOutcome};
ghost use Rattle.epoch_refs.specs.Flushing.{NoneDue, Pays};
ghost use Rattle.epoch_refs.specs.Walks.{IsAtRest};

use epoch_domain::{EpochDomain, EpochSeat, Protocol};

/// Gives up the reference of each entry that is due, and answers how many these were, where they are fewer than 2^64.
/// One event for each.
pub(crate) fn pay_due<P: Protocol>(domain: &EpochDomain<P>, seat: &mut EpochSeat<P>) -> u64
    requires { IsAtRest domain.now seat.old }
    ensures pays { (paid : List (Dated × EpochOutcome)) × (result ≡ min (length paid) (2 ^ 64 - 1))
        × Pays P.Kind.fits domain.now paid seat.old seat.new }
    ensures none { NoneDue seat.new.view.core }
    ensures room { seat.old.room ≤ seat.new.room }
    ensures rest { IsAtRest domain.now seat.new }
{
    let mut paid: u64 = 0;
    while domain.pay(seat).is_some() {
        paid = paid.saturating_add(1);
    }
    paid
}
