//! A seat leaves, and seat 0 takes over what it has.
ghost use Rattle.std.specs.Prelude.{◌≡◌};
ghost use Rattle.control_word.specs.core_events.Steps.{HasRoom};
ghost use Rattle.control_word.specs.acquire_retire.Leavings.{TookOver};
ghost use Rattle.control_word.specs.Resting.{IsAtRest, IsUnderNone};
ghost use Rattle.retiring_stores.specs.Leaving.{Leaves};
ghost use Rattle.retiring_stores.specs.Scanning.{IsBelow};

use crate::scanning::scan_where_due;
use control_word::{Domain, Protocol, Seat};

/// The seat leaves, and seat 0 takes over its references, what it retired and what it ended, and joins its client view
/// to its own; then it collects, where that is due. Both seats are in no call and under no snapshot, and so is seat 0
/// afterwards.
pub fn leave<P: Protocol>(domain: &Domain<P>, root: &mut Seat<P>, seat: Seat<P>)
    requires rests { IsAtRest domain.now root.old × IsAtRest domain.now seat }
    requires none { IsUnderNone root.old.view.core × IsUnderNone seat.view.core }
    requires first { root.old.view.core.seat ≡ 0 }
    ensures leaves { Leaves P.Kind.fits domain.now (P.joined domain.now.protocol)
        root.old seat root.new }
    ensures none { IsUnderNone root.new.view.core }
    ensures first { root.new.view.core.seat ≡ 0 }
    ensures room { HasRoom root.new.view.core }
    ensures rest { IsAtRest domain.now root.new }
{
    take_over(domain, root, seat);
    scan_where_due(domain, root);
    room_below(domain, root);
}

/// Seat 0 takes over what the seat has.
fn take_over<P: Protocol>(domain: &Domain<P>, root: &mut Seat<P>, seat: Seat<P>)
    requires rests { IsAtRest domain.now root.old × IsAtRest domain.now seat }
    requires none { IsUnderNone root.old.view.core × IsUnderNone seat.view.core }
    requires first { root.old.view.core.seat ≡ 0 }
    ensures joined { TookOver domain.now P.Kind.fits (P.joined domain.now.protocol)
        root.old seat root.new }
    ensures none { IsUnderNone root.new.view.core }
    ensures first { root.new.view.core.seat ≡ 0 }
    ensures rest { IsAtRest domain.now root.new }
{
    domain.leave(root, seat);
}

/// A seat that has retired fewer entries than make a scan due has room for one more. It does nothing.
fn room_below<P: Protocol>(domain: &Domain<P>, seat: &Seat<P>)
    requires rest { IsAtRest domain.now seat.now }
    requires below { IsBelow domain.now seat.now }
    ensures { HasRoom seat.now.view.core }
{
    let _deferred = domain.deferred(seat);
}
