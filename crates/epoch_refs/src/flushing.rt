//! A flush: the epoch is advanced, what is due is given up, and what has ended is destroyed.
ghost use Rattle.std.specs.Prelude.{IfOk, OnErr};
ghost use Rattle.slot_store.specs.deleter.Weighing.{Weighs};
ghost use Rattle.epoch_refs.specs.Exchanges.{IsUnchanged};
ghost use Rattle.epoch_refs.specs.Flushing.{Flushes};
ghost use Rattle.epoch_refs.specs.Walks.{IsAtRest};

use crate::destroying::destroy_all;
use crate::paying::pay_due;
use crate::sweeping::sweep;
use epoch_domain::{EpochDomain, EpochSeat, OutOfMemory, Protocol};
use slot_store::Deleter;
use std::alloc::Global;

/// No memory has room for twice as many entries.
const MOST_WAITING: u64 = 1 << 62;

/// What a flush did.
#[derive(Clone, Copy, PartialEq, Eq, Debug, Drop)]
pub struct EpochWork {
    /// The epoch that the seat knows in the end.
    pub epoch: u64,
    /// How many pending entries it gave up.
    pub paid: u64,
    /// The weights of the objects that it destroyed, added up.
    pub weight: u64,
}

/// Flushes what the seat has pending. It takes room for all entries that it can make; reads the epoch and each region
/// word, and makes the epoch one later where every open region began at it; gives up each entry that is dated two
/// epochs or more before the one that it knows then; and destroys each object that it has ended, weighing its
/// payload. What destroyed objects referred to stays for a later flush.
///
/// A refusal comes before any event, and nothing has changed but the room for entries. At most 2 events more than there
/// are seats, one for each entry given up, and 21 for each object destroyed.
pub fn flush<P: Protocol, F: Fn(&[u64; 16]) -> u64>(
    _alloc: Global,
    domain: &EpochDomain<P>,
    seat: &mut EpochSeat<P>,
    deleter: &Deleter<P::Kind, F>,
) -> Result<EpochWork, OutOfMemory>
    requires rest { IsAtRest domain.now seat.old }
    requires weighs { Weighs P.Kind.fits P.Kind.weight F.Fn deleter.now }
    ensures flushed { IfOk result (λ work. Flushes P.Kind.fits domain.now P.Kind.weight work
        seat.old seat.new) }
    ensures refused { OnErr result (IsUnchanged seat.old seat.new) }
    ensures rest { IsAtRest domain.now seat.new }
{
    let waiting = domain.waiting(seat);
    if waiting > MOST_WAITING {
        return Err(OutOfMemory);
    }
    domain.reserve(seat, 2 * waiting as usize)?;
    sweep(domain, seat);
    let paid = pay_due(domain, seat);
    let weight = destroy_all(domain, seat, deleter);
    Ok(EpochWork {
        epoch: domain.known(seat),
        paid,
        weight,
    })
}
