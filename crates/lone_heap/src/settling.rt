//! A seat that is alone settles.
ghost use Rattle.std.specs.Prelude.{◌≡◌, []};
ghost use Rattle.plain_settling.specs.Settling.{TidiesTo};
ghost use Rattle.plain_settling.specs.plain_store.Settling.{IsSettled};
ghost use Rattle.slot_store.specs.deleter.Weighing.{Weighs};
ghost use Rattle.lone_heap.specs.Lone.{IsReady, known_plain};
ghost use Rattle.lone_heap.specs.Trails.{Shows};

use protected_loads::{Domain, Protocol, Seat};
use slot_store::{Deleter, settle};

/// Ejects, ends and destroys until nothing more may go, and answers the weights of what it destroyed, added up. The
/// cost is that of `slot_store::settle`.
pub fn settle_all<P: Protocol, F: Fn(&[u64; 16]) -> u64>(
    domain: &Domain<P>,
    seat: &mut Seat<P>,
    deleter: &Deleter<P::Kind, F>,
) -> u64
    requires ready { IsReady domain.now seat.old }
    requires weighs { Weighs P.Kind.fits P.Kind.weight F.Fn deleter.now }
    ensures tidies { TidiesTo (known_plain domain.now seat.old) (known_plain domain.now seat.new) }
    ensures settled { IsSettled (known_plain domain.now seat.new) }
    ensures trail { Shows [] seat.old.view.core seat.new.view.core }
    ensures notes { seat.new.view.core.notes ≡ seat.old.view.core.notes }
    ensures ready { IsReady domain.now seat.new }
{
    settle(domain, seat, deleter)
}
