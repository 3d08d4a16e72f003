//! The lanes that ran to their end are parted from one that was refused.
ghost use Rattle.std.specs.Prelude.{IfErr, IfOk, Some};
ghost use Rattle.lane_reports.specs.Parting.{AllRan, RanToEnd};
ghost use Rattle.lane_domain.specs.lane_files.Makes.{cause_of};
ghost use Rattle.lane_reports.specs.Refusals.{IsAnswerFor, IsFirstRefusal, IsRefusalOf};
ghost use Rattle.lane_domain.specs.lane_files.PieceMakes.{cause_in};

use crate::counted::CountError;
use crate::done::Done;
use domain_audit::{MakeError, Seat};
use lane_domain::{FileError, LaneEnd, LaneError, LaneStop, PieceError, WordsLaw};
use std::alloc::Global;
use tally_sums::OutOfMemory;

/// Why a make or an add was refused, with the seat. A lane has as many makes as its tickets grant, so that it never
/// lacks one: the arm of `MakesSpent` is there for the type.
fn refusal_of_make(error: MakeError, seat: Seat<WordsLaw>) -> CountError
    ensures { IsAnswerFor (Some error) seat result }
{
    match error {
        MakeError::AddsSpent => CountError::Spent(seat),
        MakeError::MakesSpent => CountError::Full(seat),
        MakeError::Full => CountError::Full(seat),
    }
}

/// Why a piece wasn't counted, with the seat.
fn refusal_of_piece(error: PieceError, seat: Seat<WordsLaw>) -> CountError
    ensures { IsAnswerFor (cause_in error) seat result }
{
    match error {
        PieceError::Interning(error) => refusal_of_make(error, seat),
        PieceError::Offering(error) => refusal_of_make(error, seat),
        PieceError::Taking(LaneError::Refused(error)) => refusal_of_make(error, seat),
        PieceError::Taking(LaneError::OutOfMemory) => CountError::OutOfMemory,
    }
}

/// Why a lane stopped, with its seat.
fn refusal_of(stop: LaneStop, seat: Seat<WordsLaw>) -> CountError
    ensures { IsAnswerFor (cause_of stop) seat result }
{
    match stop {
        LaneStop::Spent => CountError::Spent(seat),
        LaneStop::File(FileError::Piece(error)) => refusal_of_piece(error, seat),
        LaneStop::File(FileError::OutOfMemory) => CountError::OutOfMemory,
    }
}

/// What a lane has that ran to its end.
fn part_lane(ended: LaneEnd) -> Result<Done, CountError>
    ensures ran { IfOk result (RanToEnd ended) }
    ensures why { IfErr result (IsRefusalOf ended) }
{
    let LaneEnd { seat, lane, end } = ended;
    match end {
        Ok(()) => Ok(Done { seat, lane }),
        Err(stop) => Err(refusal_of(stop, seat)),
    }
}

/// What the lanes have, if all ran to their end. Else why the first one stopped that did.
pub(crate) fn part_lanes(alloc: Global, ends: Vec<LaneEnd>) -> Result<Vec<Done>, CountError>
    ensures ran { IfOk result (λ done. AllRan ends.items done.items) }
    ensures why { IfErr result (IsFirstRefusal ends.items) }
{
    let Ok(mut done) = Vec::with_capacity(alloc, ends.len()) else {
        return Err(CountError::OutOfMemory);
    };
    for ended in ends {
        done.push_reserved(part_lane(ended)?);
    }
    Ok(done)
}
