//! The call on the word of tickets. It is one atomic step.
ghost use Rattle.std.specs.Prelude.{◌≡◌, slice_index_or};
ghost use Rattle.core_promises.specs.core_events.declared.act.Act.TheVariants as act;
ghost use Rattle.core_promises.specs.core_events.Steps.{May};
ghost use Rattle.acquire_retire.specs.Calls.{IsOf, IsReady, Steps};

use crate::domain::Domain;
use crate::seat::Seat;
use core_promises::{Act, Outcome};
use domain_rule::{Deed, Protocol};
use dying_slots::ticket_index;
use std::marker::Brand;

/// How many makes a ticket grants, by its number.
fn granted_by(grants: &[u64], ticket: u64) -> u64
    ensures { result ≡ slice_index_or grants.now ticket 0 }
{
    match grants.get(ticket as usize) {
        Some(makes) => *makes,
        None => 0,
    }
}

impl<P: Protocol> Domain<P> {
    /// Draws the next ticket, and answers its number. It costs an add, and from then on the seat may make as many more
    /// objects as the domain grants with that number.
    pub fn ticket<D: Deed<P>>(&self, seat: &mut Seat<P>, deed: D) -> Outcome
        requires seat { IsOf self.now seat.old }
        requires may { May self.now.shape act.Ticket seat.old.view.core }
        requires deed { IsReady (D.ready deed self.now.protocol) self.now.shape act.Ticket
            seat.old.view }
        ensures { Steps P.Kind.fits self.now (D.next deed self.now.protocol)
            (D.allows deed self.now.protocol) act.Ticket seat.old seat.new result }
    {
        let word = ticket_index(&self.shape);
        let found = self.fetch_add_as::<D, Brand>(&mut seat.seat, Act::Ticket, deed, word, 1);
        seat.adds += 1;
        seat.granted += granted_by(&self.grants, found);
        Outcome::Number(found)
    }
}
