//! How a domain ends.
ghost use Rattle.epoch_rule.specs.epoch_core.Steps.{CanLeave};
ghost use Rattle.epoch_rule.specs.Views.{IsAlone};
ghost use Rattle.epoch_domain.specs.Calls.{IsOf};
ghost use Rattle.epoch_domain.specs.Wholes.{IsLast};

use crate::domain::EpochDomain;
use crate::seat::{EpochSeat, EpochSeatOf};
use epoch_rule::Protocol;

impl<P: Protocol> EpochDomain<P> {
    /// Gives up the domain and seat 0, once every other seat has left. The client's law holds of the state that seat 0
    /// knows, which is the last one, with the last view of the client's for each seat that left.
    pub fn close(self, root: EpochSeat<P>)
        requires seat { IsOf self root }
        requires alone { IsAlone root.view }
        requires may { CanLeave root.view.core }
        ensures { IsLast P.Kind.fits (P.law self.protocol) P.gone self.shape.seats root.view }
    {
        let EpochDomain { table, .. } = self;
        let EpochSeatOf { seat, .. } = root;
        table.close_with(seat).free();
    }
}
