//! How a lane draws the files that it counts.
ghost use Rattle.std.specs.Prelude.{◌≡◌, ◌^◌, ◌<◌, ◌≤◌, ◌+◌, [], ◌∷◌, IfErr, OnOk, length};
ghost use Rattle.words_protocol.specs.cdrc_text.Tally.{total_of};
ghost use Rattle.hand_queues.specs.deleter.Weighing.{Weighs};
ghost use Rattle.lane_files.specs.Ready.{IsReady};
ghost use Rattle.lane_files.specs.Counting.{StopsInFile};
ghost use Rattle.lane_files.specs.Lanes.{CountsTickets, HasGrants, RunsLane, StopsLane};
ghost use Rattle.lane_files.specs.Work.{IsWork, all_tickets, words_of};

use crate::Shared;
use crate::counting::count_file;
use crate::keeper::give_back;
use crate::refusal::{FileError, LaneStop};
use control_word::{Domain, PayloadKind, Seat};
use hand_queues::Deleter;
use lane_gate::Gate;
use lane_work::{Lane, Work};
use std::sync::Wait;
use weak_intern::draw;
use words_protocol::{NodeKind, PairKind, RecordKind, Right, WordsLaw};

/// Draws tickets and counts their files, until it draws one that stands for no file. Of each file in the last round it
/// keeps one reference to the record of each word; those of earlier rounds it gives up when their file ends.
///
/// It is refused where the seat has no add left for a ticket, or as `count_file` is. It draws at most one ticket more
/// than there are. It may wait for other threads.
pub fn run_lane<R: Wait, G: Gate, F: Fn(&[u64; 16]) -> u64>(
    rt: &R,
    domain: &Domain<WordsLaw>,
    seat: &mut Seat<WordsLaw>,
    shared: &Shared,
    gate: &G,
    weigh: &Deleter<PairKind<NodeKind, RecordKind>, F>,
    lane: &mut Lane,
    work: &Work,
) -> Result<(), LaneStop>
    requires ready { IsReady domain.now shared.now seat.old }
    requires weighs { Weighs ⟦<PairKind<NodeKind, RecordKind> as PayloadKind>⟧.fits
        ⟦<PairKind<NodeKind, RecordKind> as PayloadKind>⟧.weight F.Fn weigh.now }
    requires work { IsWork work.now }
    requires grants { HasGrants domain.now work.now }
    requires few { total_of lane.old.tally < 2 ^ 62 }
    requires turns { lane.old.turn < 2 ^ 62 }
    ensures runs { OnOk result (RunsLane work.now seat.old seat.new lane.old lane.new) }
    ensures why { IfErr result (λ stop. StopsLane
        ⟦<PairKind<NodeKind, RecordKind> as PayloadKind>⟧.fits domain.now work.now stop
        seat.old seat.new lane.old lane.new) }
    ensures ready { IsReady domain.now shared.now seat.new }
{
    for _draw in 0..=work.tickets() {
        let ticket = draw::<Right, WordsLaw>(domain, seat)?;
        if ticket >= work.tickets() {
            return Ok(());
        }
        count_ticket(rt, domain, seat, shared, gate, weigh, lane, work, ticket)?;
    }
    Ok(())
}

/// Counts the file of a ticket.
fn count_ticket<R: Wait, G: Gate, F: Fn(&[u64; 16]) -> u64>(
    rt: &R,
    domain: &Domain<WordsLaw>,
    seat: &mut Seat<WordsLaw>,
    shared: &Shared,
    gate: &G,
    weigh: &Deleter<PairKind<NodeKind, RecordKind>, F>,
    lane: &mut Lane,
    work: &Work,
    ticket: u64,
) -> Result<(), FileError>
    requires ready { IsReady domain.now shared.now seat.old }
    requires weighs { Weighs ⟦<PairKind<NodeKind, RecordKind> as PayloadKind>⟧.fits
        ⟦<PairKind<NodeKind, RecordKind> as PayloadKind>⟧.weight F.Fn weigh.now }
    requires work { IsWork work.now }
    requires quota { seat.old.view.client.1.used + length (words_of work.now ticket)
        ≤ seat.old.view.client.1.quota }
    requires few { total_of lane.old.tally + 2 ^ 20 ≤ 2 ^ 63 }
    requires turns { lane.old.turn < 2 ^ 63 }
    ensures counts { OnOk result (CountsTickets work.now (ticket ∷ []) seat.old seat.new
        lane.old lane.new) }
    ensures why { IfErr result (λ error. StopsInFile
        ⟦<PairKind<NodeKind, RecordKind> as PayloadKind>⟧.fits domain.now
        (words_of work.now ticket) error seat.old seat.new lane.old lane.new) }
    ensures turn { OnOk result (lane.new.turn ≤ lane.old.turn + 2 ^ 20) }
    ensures tickets { OnOk result (seat.new.view.core.tickets ≡ seat.old.view.core.tickets) }
    ensures ready { IsReady domain.now shared.now seat.new }
{
    let kept = lane.keeper.kept.len();
    count_file(
        rt,
        domain,
        seat,
        shared,
        gate,
        weigh,
        lane,
        work.file(ticket),
    )?;
    if !work.is_last(ticket) {
        give_back(&mut lane.keeper, domain, seat, shared, kept);
    }
    Ok(())
}
