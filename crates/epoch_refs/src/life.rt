//! How a domain under epochs begins and ends.
ghost use Rattle.std.specs.Prelude.{◌≡◌, ◌↔◌, ◌+◌, ◌-◌, ◌^◌, All, Err, IfOk, OnOk, length, min, slice_index_or};
ghost use Rattle.epoch_domain.specs.epoch_core.core_events.declared.shape.ShapeField.{ShapeField};
ghost use Rattle.control_word.specs.acquire_retire.declared.errors.OpenError.TheVariants.{BadShape};
ghost use Rattle.epoch_domain.specs.epoch_core.Runs.{AreQuotas, IsShape};
ghost use Rattle.epoch_domain.specs.epoch_core.Steps.{CanLeave};
ghost use Rattle.epoch_domain.specs.epoch_rule.Views.{IsAlone};
ghost use Rattle.epoch_domain.specs.Calls.{IsOf};
ghost use Rattle.epoch_domain.specs.Leavings.{TookOver};
ghost use Rattle.epoch_domain.specs.Openings.{AreOpened};
ghost use Rattle.epoch_domain.specs.Seats.{SeatState};
ghost use Rattle.epoch_domain.specs.Wholes.{IsLast, IsWholeImage};
ghost use Rattle.epoch_domain.specs.epoch_parts.Fields.{IsFirstBad};
ghost use Rattle.epoch_refs.specs.Walks.{IsAtRest, IsFree};

use control_word::OpenError;
use epoch_domain::{
    EpochDomain, EpochSeat, EpochShape, Heap, OutOfMemory, Protocol, Quota, first_bad, open_domain,
};
use std::alloc::Global;

/// A domain in which nothing has happened, and its seats in order, one for each quota.
///
/// `BadShape` names the first field, in the order of `ShapeField`, that is out of its range: 1 to 32 seats, 1 to
/// 4,194,304 slots, at most 4,194,304 cells, a quota for each seat with at most 2^40 makes and adds. It takes the
/// memory of all words; pending entries take theirs when they come.
pub fn open_epoch<P: Protocol + Drop>(
    alloc: Global,
    shape: EpochShape,
    quotas: &[Quota],
    protocol: P,
) -> Result<(EpochDomain<P>, Vec<EpochSeat<P>>), OpenError>
    ensures domain { IfOk result (λ r. r.0 ≡ record {
      table = r.0.table;
      protocol = protocol;
      shape = shape;
      quotas = quotas.now;
    }) }
    ensures seats { IfOk result (λ r. AreOpened (P.first protocol) r.0 r.1.items) }
    ensures count { IfOk result (λ r. length r.1.items ≡ shape.seats) }
    ensures free { IfOk result (λ r. All (IsFree r.0) r.1.items) }
    ensures first { IfOk result (λ r. (other : SeatState P.View)
        → (slice_index_or r.1.items 0 other).view.core.seat ≡ 0) }
    ensures ranges { OnOk result (IsShape shape × AreQuotas shape quotas.now) }
    ensures bad { (f : ShapeField) → (result ≡ Err (BadShape f)) ↔ IsFirstBad shape quotas.now f }
{
    if let Some(field) = first_bad(&shape, quotas) {
        return Err(OpenError::BadShape(field));
    }
    Ok(open_domain(alloc, shape, quotas, protocol)?)
}

/// How many references the seat has yet to give up, and objects to destroy, together: exact where that is below 2^64.
/// Where it is 0 nothing of the seat's is pending. No event.
pub fn waiting<P: Protocol>(domain: &EpochDomain<P>, seat: &EpochSeat<P>) -> u64
    requires { IsOf domain.now seat.now }
    ensures { result ≡ min (length seat.now.view.core.pending + length seat.now.view.core.dying)
        (2 ^ 64 - 1) }
{
    domain.waiting(seat)
}

/// The seat leaves, and seat 0 takes over what it has. Both are in the middle of nothing, and neither has an open
/// region. It takes no memory. One event.
pub fn e_leave<P: Protocol>(domain: &EpochDomain<P>, root: &mut EpochSeat<P>, seat: EpochSeat<P>)
    requires seats { IsOf domain.now root.old × IsOf domain.now seat }
    requires root { root.old.view.core.seat ≡ 0 }
    requires may { CanLeave root.old.view.core × CanLeave seat.view.core }
    ensures left { TookOver domain.now P.Kind.fits (P.joined domain.now.protocol)
        root.old seat root.new }
    ensures root { root.new.view.core.seat ≡ 0 }
    ensures free { IsFree domain.now root.old → IsFree domain.now root.new }
{
    domain.leave(root, seat);
}

/// The whole state as words, taken by a seat that is alone: `strong` of a slot is its count, 2^63 where it is free or
/// its object has ended; what is pending is deferred. No event: each word is loaded once.
pub fn e_image<P: Protocol>(
    alloc: Global,
    domain: &EpochDomain<P>,
    seat: &mut EpochSeat<P>,
) -> Result<Heap, OutOfMemory>
    requires rest { IsAtRest domain.now seat.old }
    requires alone { IsAlone seat.old.view }
    ensures stays { seat.new ≡ seat.old }
    ensures image { IfOk result (IsWholeImage P.Kind.fits seat.old.view) }
{
    domain.image(alloc, seat)
}

/// Gives up the domain and seat 0, once every other seat has left. The client's law holds of the state that seat 0
/// knows, which is the last one, with the last view of the client's for each seat that left.
pub fn e_close<P: Protocol>(domain: EpochDomain<P>, root: EpochSeat<P>)
    requires seat { IsOf domain root }
    requires alone { IsAlone root.view }
    requires may { CanLeave root.view.core }
    ensures { IsLast P.Kind.fits (P.law domain.protocol) P.gone domain.shape.seats root.view }
{
    domain.close(root);
}
