//! The payload of the object that a strong place holds.
ghost use Rattle.std.specs.Prelude.{IfSome};
ghost use Rattle.atomic_shared.specs.Loading.{CanLoad};
ghost use Rattle.atomic_shared.specs.Places.{strong_place};
ghost use Rattle.snapshot_ptr.specs.Taking.{IsReadyToRetake};
ghost use Rattle.seat_life.specs.Free.{IsFree, IsSameSeat, OwnsTheSame};
ghost use Rattle.seat_life.specs.Values.{ReadsValue};

use domain_audit::{Deed, Domain, Place, Protocol, Seat};
use payload_reading::read_all;
use snapshot_ptr::{end, snapshot};
use std::sync::Wait;

/// The payload of the object that the place holds, all sixteen words of one object, read under a snapshot; `None` where
/// the place was found null. It fits the protocol's kind, since the object does. It tries again as long as the place
/// changes between its look and its check, so it may wait for other threads. At most four steps for each try, and 17
/// more.
pub fn read_value<P: Protocol, D: Deed<P>, R: Wait>(
    rt: &R,
    domain: &Domain<P>,
    seat: &mut Seat<P>,
    place: Place,
    deed: D,
) -> Option<[u64; 16]>
    requires free { IsFree domain.now seat.old }
    requires place { CanLoad domain.now.shape seat.old.view.core place }
    requires deed { IsReadyToRetake P.Kind.fits domain.now (strong_place place)
        (D.next deed domain.now.protocol) (D.allows deed domain.now.protocol)
        (D.ready deed domain.now.protocol) seat.old }
    ensures read { ReadsValue P.Kind.fits domain.now (D.next deed domain.now.protocol)
        (D.allows deed domain.now.protocol) (strong_place place) result seat.old seat.new }
    ensures fits { IfSome result (λ payload. P.Kind.fits payload) }
    ensures owns { OwnsTheSame seat.old seat.new }
    ensures same { IsSameSeat seat.old seat.new }
    ensures free { IsFree domain.now seat.new }
{
    let Ok(found) = snapshot(rt, domain, seat, place, deed) else {
        unreachable!()
    };
    let seen = found?;
    let payload = read_all(domain, seat, seen.slot());
    end(domain, seat, seen);
    Some(payload)
}
