//! The lanes that ran to their end are parted from one that was refused.
ghost use Rattle.std.specs.Prelude.{All, IfErr, IfOk};
ghost use Rattle.cell_domain.specs.cell_lanes.Ready.{IsReady};
ghost use Rattle.cell_reports.specs.Parting.{AllRan, IsAnswerFor, IsFirstRefusal, IsRefusalOf, IsReadyEnd, RanToEnd};

use crate::counted::EpochCountError;
use crate::learning::learn_heads;
use cell_domain::{CellLaw, EpochDomain, EpochSeat, LaneEnd, LaneStop};
use cell_gathering::Done;
use std::alloc::Global;

/// Why a lane stopped, with its seat, which learns of its heads where each slot was found taken. A lane has as many
/// makes as its words can take, so that it never lacks one: the arm of `MakesSpent` is there for the type.
fn refusal_of(
    domain: &EpochDomain<CellLaw>,
    stop: LaneStop,
    mut seat: EpochSeat<CellLaw>,
) -> EpochCountError
    requires ready { IsReady domain.now seat }
    ensures { IsAnswerFor stop seat result }
{
    match stop {
        LaneStop::AddsSpent => EpochCountError::Spent(seat),
        LaneStop::MakesSpent => EpochCountError::Full(seat),
        LaneStop::Full => {
            learn_heads(domain, &mut seat);
            EpochCountError::Full(seat)
        }
        LaneStop::OutOfMemory => EpochCountError::OutOfMemory,
    }
}

/// What a lane has that ran to its end.
fn part_lane(domain: &EpochDomain<CellLaw>, ended: LaneEnd) -> Result<Done, EpochCountError>
    requires ready { IsReadyEnd domain.now ended }
    ensures ran { IfOk result (RanToEnd ended) }
    ensures why { IfErr result (IsRefusalOf ended) }
{
    let LaneEnd { seat, lane, end } = ended;
    match end {
        Ok(()) => Ok(Done { seat, lane }),
        Err(stop) => Err(refusal_of(domain, stop, seat)),
    }
}

/// What the lanes have, if all ran to their end. Else why the first one stopped that did.
pub(crate) fn part_lanes(
    alloc: Global,
    domain: &EpochDomain<CellLaw>,
    ends: Vec<LaneEnd>,
) -> Result<Vec<Done>, EpochCountError>
    requires ready { All (IsReadyEnd domain.now) ends.items }
    ensures ran { IfOk result (λ done. AllRan ends.items done.items) }
    ensures why { IfErr result (IsFirstRefusal ends.items) }
{
    let mut done = Vec::with_capacity(alloc, ends.len())?;
    for ended in ends {
        done.push_reserved(part_lane(domain, ended)?);
    }
    Ok(done)
}
