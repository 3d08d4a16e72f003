//! How a domain ends.
ghost use Rattle.core_promises.specs.core_events.Steps.{CanLeave};
ghost use Rattle.domain_rule.specs.Views.{IsAlone};
ghost use Rattle.acquire_retire.specs.Calls.{IsOf};
ghost use Rattle.acquire_retire.specs.Wholes.{IsLast};

use crate::domain::Domain;
use crate::seat::{Seat, SeatOf};
use domain_rule::Protocol;

impl<P: Protocol> Domain<P> {
    /// Gives up the domain and seat 0, once every other seat has left. The client's law holds of the state that seat 0
    /// knows, which is the last one, with the last view of the client's for each seat that left.
    pub fn close(self, root: Seat<P>)
        requires seat { IsOf self root }
        requires alone { IsAlone root.view }
        requires may { CanLeave root.view.core }
        ensures { IsLast P.Kind.fits (P.law self.protocol) P.gone self.shape.seats root.view }
    {
        let Domain { table, .. } = self;
        let SeatOf { seat, .. } = root;
        table.close_with(seat).free();
    }
}
