//! Which files a lane counts, and that it counts them.
ghost use Rattle.std.specs.Prelude.{◌≡◌, ◌<◌, ◌≤◌, ◌∷◌, [], IfErr, OnOk, length};
ghost use Rattle.lane_work.specs.Work.{IsWork, words_of, words_of_all};
ghost use Rattle.cell_lanes.specs.Lanes.{CountsTickets, is_taken, lane_tickets};
ghost use Rattle.cell_lanes.specs.Ready.{CanCount, IsReady};
ghost use Rattle.cell_lanes.specs.Stopping.{Stops};

use crate::counting::count_file;
use crate::keeping::give_back;
use crate::refusal::LaneStop;
use cell_intern::{CellLaw, EpochDomain, EpochSeat};
use lane_gate::Gate;
use lane_work::{Lane, Work};
use std::alloc::Global;
use std::sync::Wait;

/// Counts the files of a lane, one of so many: those whose numbers leave the lane's number when they are divided by the
/// lanes, in each round. Of each file in the last round it keeps one reference to the record of each word; those of
/// earlier rounds it gives up when their file ends.
///
/// It is refused at the first piece that isn't counted, with the cause of `count_piece`. It may wait for other threads.
pub fn run_lane<R: Wait, G: Gate>(
    rt: &R,
    alloc: Global,
    domain: &EpochDomain<CellLaw>,
    seat: &mut EpochSeat<CellLaw>,
    gate: &G,
    lane: &mut Lane,
    work: &Work,
    lanes: u32,
) -> Result<(), LaneStop>
    requires ready { IsReady domain.now seat.old }
    requires work { IsWork work.now }
    requires lanes { 0 < lanes }
    requires room { CanCount (length (words_of_all work.now
        (lane_tickets work.now lanes lane.old.number))) seat.old lane.old }
    ensures counts { OnOk result (CountsTickets domain.now work.now
        (lane_tickets work.now lanes lane.old.number) seat.old seat.new lane.old lane.new) }
    ensures stops { IfErr result (λ stop. Stops domain.now (words_of_all work.now
        (lane_tickets work.now lanes lane.old.number)) stop seat.old seat.new
        lane.old lane.new) }
    ensures ready { IsReady domain.now seat.new }
{
    for ticket in 0..work.tickets() {
        if !is_of_lane(work, lanes, lane.number, ticket) {
            continue;
        }
        count_ticket(rt, alloc, domain, seat, gate, lane, work, ticket)?;
    }
    Ok(())
}

/// Whether a lane, one of so many, takes the ticket.
fn is_of_lane(work: &Work, lanes: u32, number: u32, ticket: u64) -> bool
    requires work { IsWork work.now }
    requires lanes { 0 < lanes }
    ensures { result ≡ is_taken work.now lanes number ticket }
{
    ticket % work.files.len() as u64 % u64::from(lanes) == u64::from(number)
}

/// Counts the file of a ticket.
fn count_ticket<R: Wait, G: Gate>(
    rt: &R,
    alloc: Global,
    domain: &EpochDomain<CellLaw>,
    seat: &mut EpochSeat<CellLaw>,
    gate: &G,
    lane: &mut Lane,
    work: &Work,
    ticket: u64,
) -> Result<(), LaneStop>
    requires ready { IsReady domain.now seat.old }
    requires work { IsWork work.now }
    requires room { CanCount (length (words_of work.now ticket)) seat.old lane.old }
    ensures counts { OnOk result (CountsTickets domain.now work.now (ticket ∷ [])
        seat.old seat.new lane.old lane.new) }
    ensures stops { IfErr result (λ stop. Stops domain.now (words_of work.now ticket) stop
        seat.old seat.new lane.old lane.new) }
    ensures ready { IsReady domain.now seat.new }
{
    let kept = lane.keeper.kept.len();
    count_file(rt, alloc, domain, seat, gate, lane, work.file(ticket))?;
    if !work.is_last(ticket) {
        give_back(&mut lane.keeper, domain, seat, kept);
    }
    Ok(())
}
