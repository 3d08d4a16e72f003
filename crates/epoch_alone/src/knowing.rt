//! That a seat which is alone knows the whole state.
ghost use Rattle.std.specs.Prelude.{IsSome};
ghost use Rattle.epoch_refs.specs.epoch_domain.Calls.{IsOf};
ghost use Rattle.epoch_refs.specs.epoch_rule.Views.{IsAlone, own_of};

use epoch_refs::{EpochDomain, EpochSeat, Protocol};

/// Tells that a seat which is alone knows the whole state. No event.
pub fn lone_knows<P: Protocol>(domain: &EpochDomain<P>, seat: &EpochSeat<P>)
    requires { IsOf domain.now seat.now }
    ensures { IsAlone seat.now.view → IsSome (own_of seat.now.view).whole }
{
    let _alone = domain.alone(seat);
}
