//! Flushes of a seat that is alone, until nothing waits.
ghost use Rattle.std.specs.Prelude.{IfOk, OnOk};
ghost use Rattle.deleter.specs.Weighing.{Weighs};
ghost use Rattle.epoch_refs.specs.epoch_rule.Views.{IsAlone};
ghost use Rattle.epoch_refs.specs.Walks.{IsFree};
ghost use Rattle.epoch_settling.specs.Settling.{Settles, StaysBut};
ghost use Rattle.epoch_alone.specs.Cells.{HaveSameCells};
ghost use Rattle.epoch_alone.specs.Lone.{KnowsBoth};

use deleter::Deleter;
use epoch_settling::{EpochDomain, EpochSeat, OutOfMemory, Protocol, settle_epochs};
use std::alloc::Global;
use std::sync::Wait;

/// Flushes until the seat, which is alone and outside, has nothing pending and nothing to destroy, and answers what was
/// destroyed weighed, where that is below 2^64. Each cell holds what it held then. A refusal comes of an allocation
/// failure alone, and leaves what earlier flushes did. Two flushes for each object of the longest chain that it
/// destroys.
pub fn settle_alone<R: Wait, P: Protocol, F: Fn(&[u64; 16]) -> u64>(
    rt: &R,
    alloc: Global,
    domain: &EpochDomain<P>,
    seat: &mut EpochSeat<P>,
    deleter: &Deleter<P::Kind, F>,
) -> Result<u64, OutOfMemory>
    requires free { IsFree domain.now seat.old }
    requires alone { IsAlone seat.old.view }
    requires weighs { Weighs P.Kind.fits P.Kind.weight F.Fn deleter.now }
    ensures settled { IfOk result (λ weight. Settles P.Kind.fits domain.now P.Kind.weight weight
        seat.old seat.new) }
    ensures cells { OnOk result (KnowsBoth HaveSameCells seat.old.view seat.new.view) }
    ensures stays { StaysBut seat.old seat.new }
    ensures free { IsFree domain.now seat.new }
    ensures alone { IsAlone seat.new.view }
{
    let _alone = domain.alone(seat);
    settle_epochs(rt, alloc, domain, seat, deleter)
}
