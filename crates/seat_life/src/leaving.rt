//! All seats leave.
ghost use Rattle.std.specs.Prelude.{◌≡◌, ◌↔◌, ◌+◌, ◌<◌, All, length};
ghost use Rattle.domain_audit.specs.domain_rule.Views.{IsAlone};
ghost use Rattle.domain_audit.specs.slot_store.retiring_stores.Leaving.{Leaves};
ghost use Rattle.seat_life.specs.Free.{IsFree, IsRoot, OwnsNothing};
ghost use Rattle.seat_life.specs.Leaving.{LeaveInTurn};

use domain_audit::{Domain, Protocol, Seat, leave};

/// One seat leaves.
fn leave_one<P: Protocol>(domain: &Domain<P>, root: &mut Seat<P>, seat: Seat<P>)
    requires root { IsRoot domain.now root.old }
    requires seat { IsFree domain.now seat }
    ensures root { IsRoot domain.now root.new }
    ensures leaves { Leaves P.Kind.fits domain.now (P.joined domain.now.protocol)
        root.old seat root.new }
    ensures left { length root.new.view.core.left_seats
        ≡ length root.old.view.core.left_seats + 1 }
    ensures owns { OwnsNothing root.old.view.core → OwnsNothing seat.view.core
        → OwnsNothing root.new.view.core }
{
    leave(domain, root, seat);
}

/// The seats leave to seat 0 one after another, in the order of the list: each hands over its references, what it
/// retired and what it ended, and joins its client's view to that of seat 0, as `leave` does. Seat 0 is free
/// afterwards, and it is alone exactly where these were all seats that hadn't left yet. A collect for each seat at
/// most.
pub fn leave_all<P: Protocol>(domain: &Domain<P>, root: &mut Seat<P>, others: Vec<Seat<P>>)
    requires root { IsRoot domain.now root.old }
    requires others { All (IsFree domain.now) others.items }
    ensures root { IsRoot domain.now root.new }
    ensures leave { LeaveInTurn P.Kind.fits domain.now (P.joined domain.now.protocol)
        others.items root.old root.new }
    ensures left { length root.new.view.core.left_seats
        ≡ length root.old.view.core.left_seats + length others.items }
    ensures alone { IsAlone root.new.view
        ↔ (length root.old.view.core.left_seats + length others.items + 1
        ≡ domain.now.shape.seats) }
    ensures owns { OwnsNothing root.old.view.core
        → All (λ seat. OwnsNothing seat.view.core) others.items
        → OwnsNothing root.new.view.core }
{
    let mut others = others;
    'seats: while !others.is_empty() {
        let seat = others.remove(0);
        leave_one(domain, root, seat);
    }
}
