//! A domain with a quota for seat 0 and one for each other seat.
ghost use Rattle.std.specs.Prelude.{ℕ, ◌≡◌, ◌↔◌, ◌+◌, ◌<◌, All, Err, IfOk, OnOk, length, slice_index_or};
ghost use Rattle.domain_audit.specs.acquire_retire.Seats.{SeatState};
ghost use Rattle.domain_audit.specs.acquire_retire.declared.errors.OpenError.TheVariants.{BadShape};
ghost use Rattle.domain_audit.specs.core_events.declared.shape.ShapeField.{ShapeField};
ghost use Rattle.domain_audit.specs.core_events.Runs.{AreTerms, IsShape};
ghost use Rattle.domain_audit.specs.core_functions.Fields.{IsFirstBad};
ghost use Rattle.seat_life.specs.Free.{IsFree, IsRoot};
ghost use Rattle.seat_life.specs.Opening.{IsFresh, terms_of};

use domain_audit::{Domain, OpenError, Protocol, Quota, Seat, Shape, ShapeField, open_domain};
use std::alloc::Global;

/// A domain that was just opened, its seat 0, and its other seats, in order.
#[derive(Drop)]
pub struct Opened<P: Protocol> {
    pub domain: Domain<P>,
    pub root: Seat<P>,
    pub others: Vec<Seat<P>>,
}

/// A domain under the protocol, with all its seats in one list.
fn open_listed<P: Protocol + Drop>(
    alloc: Global,
    shape: Shape,
    root: Quota,
    each: Quota,
    protocol: P,
) -> Result<(Domain<P>, Vec<Seat<P>>), OpenError>
    ensures domain { IfOk result (λ opened. opened.0 ≡ record {
      table = opened.0.table;
      protocol = protocol;
      shape = shape;
      terms = terms_of shape.seats root each;
    }) }
    ensures first { IfOk result (λ opened. (other : SeatState P.View) → IsFresh (P.first protocol)
        opened.0 root 0 (slice_index_or opened.1.items 0 other)) }
    ensures others { IfOk result (λ opened. (k : ℕ) (other : SeatState P.View)
        → k + 1 < shape.seats → IsFresh (P.first protocol) opened.0 each (k + 1)
        (slice_index_or opened.1.items (k + 1) other)) }
    ensures count { IfOk result (λ opened. length opened.1.items ≡ shape.seats) }
    ensures some { IfOk result (λ opened. 0 < shape.seats) }
    ensures bad { (f : ShapeField) → (result ≡ Err (BadShape f))
        ↔ IsFirstBad shape (terms_of shape.seats root each) f }
{
    // A domain has 32 seats at most.
    if shape.seats > 32 {
        return Err(OpenError::BadShape(ShapeField::Seats));
    }
    let mut quotas = [each; 32];
    quotas[0] = root;
    match open_domain(alloc, shape, &quotas[..shape.seats as usize], protocol) {
        Ok(opened) => Ok(opened),
        Err(error) => Err(error),
    }
}

/// A domain in which nothing has happened, seat 0 with a quota of its own, and the other seats in order, each with the
/// same quota. All are free, own nothing and have used nothing. `BadShape` as `open_domain` gives it: the first field
/// that is out of its range, the quotas last. It takes all the memory that the domain ever needs; `OutOfMemory` comes
/// only of an allocation failure.
pub fn open_seats<P: Protocol + Drop>(
    alloc: Global,
    shape: Shape,
    root: Quota,
    each: Quota,
    protocol: P,
) -> Result<Opened<P>, OpenError>
    ensures domain { IfOk result (λ opened. opened.domain ≡ record {
      table = opened.domain.table;
      protocol = protocol;
      shape = shape;
      terms = terms_of shape.seats root each;
    }) }
    ensures root { IfOk result (λ opened. IsRoot opened.domain opened.root) }
    ensures free { IfOk result (λ opened. All (IsFree opened.domain) opened.others.items) }
    ensures count { IfOk result (λ opened. length opened.others.items + 1 ≡ shape.seats) }
    ensures left { IfOk result (λ opened. length opened.root.view.core.left_seats ≡ 0) }
    ensures first { IfOk result (λ opened.
        IsFresh (P.first protocol) opened.domain root 0 opened.root) }
    ensures others { IfOk result (λ opened. (k : ℕ) (other : SeatState P.View)
        → k < length opened.others.items → IsFresh (P.first protocol) opened.domain each (k + 1)
        (slice_index_or opened.others.items k other)) }
    ensures bad { (f : ShapeField) → (result ≡ Err (BadShape f))
        ↔ IsFirstBad shape (terms_of shape.seats root each) f }
{
    match open_listed(alloc, shape, root, each, protocol) {
        Ok((domain, mut others)) => {
            let root = others.remove(0);
            Ok(Opened {
                domain,
                root,
                others,
            })
        }
        Err(error) => Err(error),
    }
}
