//! What a lane does for a file.
ghost use Rattle.std.specs.Prelude.{◌≡◌, ◌≤◌, ◌∷◌, [], IfErr, OnOk, length};
ghost use Rattle.lane_work.specs.FilePieces.{HasPieces, pieces_in};
ghost use Rattle.cell_lanes.specs.Counting.{CountsFile, CountsPiece};
ghost use Rattle.cell_lanes.specs.Ready.{CanCount, IsReady};
ghost use Rattle.cell_lanes.specs.Stopping.{Stops, StopsAt};

use crate::keeping::{give_up, keep};
use crate::refusal::LaneStop;
use cell_intern::{CellLaw, EpochDomain, EpochSeat, intern};
use lane_gate::Gate;
use lane_work::{FileText, Lane};
use std::alloc::Global;
use std::sync::Wait;

/// Counts a piece of 1 to 4,096 bytes beside other lanes, in one turn: it passes the gate, interns the piece, counts it
/// in the tally, and keeps a reference to its record where none to that slot is kept for the present file.
///
/// Where it is refused the lane keeps what it kept. The piece was counted then only where the answer is `OutOfMemory`,
/// there being no memory for one reference more. It may wait for other threads.
pub fn count_piece<R: Wait, G: Gate>(
    rt: &R,
    alloc: Global,
    domain: &EpochDomain<CellLaw>,
    seat: &mut EpochSeat<CellLaw>,
    gate: &G,
    lane: &mut Lane,
    piece: &[u8],
) -> Result<(), LaneStop>
    requires ready { IsReady domain.now seat.old }
    requires piece { (1 ≤ length piece.now) × (length piece.now ≤ 4096) }
    requires room { CanCount 1 seat.old lane.old }
    ensures counts { OnOk result (CountsPiece domain.now piece.now seat.old seat.new
        lane.old lane.new) }
    ensures stops { IfErr result (λ stop. StopsAt domain.now piece.now stop seat.old seat.new
        lane.old lane.new) }
    ensures ready { IsReady domain.now seat.new }
{
    gate.pass(rt, lane.number, lane.turn);
    lane.turn += 1;
    let record = intern(rt, alloc, domain, seat, piece)?;
    if let Err(_refused) = lane.tally.add(piece) {
        give_up(domain, seat, record);
        return Err(LaneStop::OutOfMemory);
    }
    if let Err(_refused) = keep(&mut lane.keeper, domain, seat, record) {
        return Err(LaneStop::OutOfMemory);
    }
    Ok(())
}

/// Counts the pieces of a file, each of 1 to 4,096 bytes, in so many turns, and keeps one reference to the record of
/// each word of the file.
///
/// It is refused at the first piece that isn't counted, with the cause of `count_piece`. The pieces before it are
/// counted then, and their records kept. It may wait for other threads.
pub fn count_file<R: Wait, G: Gate>(
    rt: &R,
    alloc: Global,
    domain: &EpochDomain<CellLaw>,
    seat: &mut EpochSeat<CellLaw>,
    gate: &G,
    lane: &mut Lane,
    file: &FileText,
) -> Result<(), LaneStop>
    requires ready { IsReady domain.now seat.old }
    requires pieces { HasPieces file.now }
    requires room { CanCount (length (pieces_in file.now)) seat.old lane.old }
    ensures counts { OnOk result (CountsFile domain.now (pieces_in file.now) seat.old seat.new
        lane.old lane.new) }
    ensures stops { IfErr result (λ stop. Stops domain.now (pieces_in file.now) stop
        seat.old seat.new lane.old lane.new) }
    ensures ready { IsReady domain.now seat.new }
{
    lane.keeper.begin_file();
    for number in 0..file.pieces.len() {
        count_piece(rt, alloc, domain, seat, gate, lane, file.piece(number))?;
    }
    Ok(())
}
