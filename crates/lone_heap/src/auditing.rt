//! The audit of a seat that is alone.
ghost use Rattle.std.specs.Prelude.{◌≡◌, [], IfOk, length};
ghost use Rattle.plain_settling.specs.plain_store.Settling.{IsSettled};
ghost use Rattle.domain_audit.specs.plain_audit.Audits.{IsAudit};
ghost use Rattle.slot_store.specs.deleter.Weighing.{Weighs};
ghost use Rattle.lone_heap.specs.Lone.{IsReady, known_plain};
ghost use Rattle.lone_heap.specs.Trails.{Shows};

use domain_audit::{Audit, audit_domain};
use protected_loads::{Domain, OutOfMemory, Protocol, Seat};
use slot_store::Deleter;
use std::alloc::Global;

/// What lives, waits and lies in cycles, in a state in which nothing more may go, which doesn't change. `rank` has a
/// number for each slot, by which a walk begins. `OutOfMemory` comes only of an allocation failure. The cost is that of
/// `audit_domain`.
pub fn audit_lone<P: Protocol, F: Fn(&[u64; 16]) -> u64>(
    alloc: Global,
    domain: &Domain<P>,
    seat: &mut Seat<P>,
    weigh: &Deleter<P::Kind, F>,
    rank: &[u64],
) -> Result<Audit, OutOfMemory>
    requires ready { IsReady domain.now seat.old }
    requires settled { IsSettled (known_plain domain.now seat.old) }
    requires weighs { Weighs P.Kind.fits P.Kind.weight F.Fn weigh.now }
    requires ranked { length rank.now ≡ length (known_plain domain.now seat.old).slots }
    ensures found { IfOk result
        (IsAudit P.Kind.weight rank.now (known_plain domain.now seat.old)) }
    ensures same { known_plain domain.now seat.new ≡ known_plain domain.now seat.old }
    ensures trail { Shows [] seat.old.view.core seat.new.view.core }
    ensures notes { seat.new.view.core.notes ≡ seat.old.view.core.notes }
    ensures ready { IsReady domain.now seat.new }
{
    audit_domain(alloc, domain, seat, weigh, rank)
}
