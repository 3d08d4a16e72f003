//! Flushes until nothing waits.
ghost use Rattle.std.specs.Prelude.{◌≡◌, IfOk};
ghost use Rattle.deleter.specs.Weighing.{Weighs};
ghost use Rattle.epoch_refs.specs.Walks.{IsAtRest};
ghost use Rattle.epoch_settling.specs.Settling.{Settles, StaysBut};

use deleter::Deleter;
use epoch_refs::{EpochDomain, EpochSeat, OutOfMemory, Protocol, flush, waiting};
use std::alloc::Global;
use std::sync::Wait;

/// Flushes until the seat has nothing pending and nothing to destroy, and answers what was destroyed weighed, where
/// that is below 2^64. A refusal comes of an allocation failure alone, and leaves what earlier flushes did.
///
/// It may go on for ever, where a region that another seat keeps open holds back what is pending. A seat that is alone
/// and outside makes two flushes for each object of the longest chain that it destroys. The events of a flush each.
pub fn settle_epochs<R: Wait, P: Protocol, F: Fn(&[u64; 16]) -> u64>(
    rt: &R,
    alloc: Global,
    domain: &EpochDomain<P>,
    seat: &mut EpochSeat<P>,
    deleter: &Deleter<P::Kind, F>,
) -> Result<u64, OutOfMemory>
    requires rest { IsAtRest domain.now seat.old }
    requires weighs { Weighs P.Kind.fits P.Kind.weight F.Fn deleter.now }
    ensures settled { IfOk result (λ weight. Settles P.Kind.fits domain.now P.Kind.weight weight
        seat.old seat.new) }
    ensures stays { StaysBut seat.old seat.new }
    ensures rest { IsAtRest domain.now seat.new }
{
    let mut weight: u64 = 0;
    for _flush in rt.forever() {
        if waiting(domain, seat) == 0 {
            return Ok(weight);
        }
        let work = flush(alloc, domain, seat, deleter)?;
        weight = weight.saturating_add(work.weight);
    }
    unreachable!()
}
