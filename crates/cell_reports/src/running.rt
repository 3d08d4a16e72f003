//! How the words of some files are counted.
ghost use Rattle.std.specs.Prelude.{◌≤◌, IfErr, IfOk};
ghost use Rattle.cell_domain.specs.lane_work.Sizes.{IsWithinLimits, most_lanes, texts_in};
ghost use Rattle.cell_domain.specs.lane_work.Work.{IsWork};
ghost use Rattle.cell_domain.specs.lane_work.plain_state.Limits.{most_slots};
ghost use Rattle.cell_gathering.specs.cdrc_text.Text.{IsReport};
ghost use Rattle.cell_records.specs.cell_rest.plain_audit.deleter.Weighing.{Weighs};
ghost use Rattle.cell_records.specs.directory_law.Bytes.{IsPiece, piece_weight};
ghost use Rattle.cell_reports.specs.Last.{IsLastRoot};
ghost use Rattle.cell_reports.specs.Refusals.{IsWhyNothing};

use crate::counted::{EpochCountError, EpochCounted};
use crate::finishing::finish;
use crate::parting::part_lanes;
use cell_domain::{Gate, Opened, Work, open_cells, run_lanes};
use cell_records::{Deleter, RecordKind};
use std::alloc::Global;
use std::sync::Wait;
use std::thread::Threads;

/// Counts the words of some files on so many lanes, over records in the strong cells of a domain with so many slots
/// whose readers open regions. It answers the report, and seat 0, which is alone by then.
///
/// It is refused where there is no memory. `Full` comes where a lane found each slot taken, which can't be where there
/// is a slot for each part of each piece in all rounds, nor with one lane where the distinct words' records have one
/// each. `Spent` comes where a seat has used its 2^40 adds. Of several lanes that stopped it answers for the first. It
/// may wait for other threads. It takes the steps of `open_cells`, of the lanes, of `gather`, `find_records` and
/// `clear_cells`, and of two audits.
pub fn count_cells<R: Threads + Wait + Sync, G: Gate + Sync, F: Fn(&[u64; 16]) -> u64>(
    rt: &R,
    alloc: Global,
    work: &Work,
    lanes: u32,
    slots: u32,
    gate: &G,
    weigh: &Deleter<RecordKind, F>,
) -> Result<EpochCounted, EpochCountError>
    requires work { IsWork work.now }
    requires within { IsWithinLimits work.now }
    requires lanes { (1 ≤ lanes) × (lanes ≤ most_lanes) }
    requires slots { (1 ≤ slots) × (slots ≤ most_slots) }
    requires weighs { Weighs IsPiece piece_weight F.Fn weigh.now }
    ensures report { IfOk result (λ counted.
        IsReport (texts_in work.now) work.now.rounds counted.text.items) }
    ensures root { IfOk result (λ counted. IsLastRoot work.now lanes slots counted.root) }
    ensures why { IfErr result (IsWhyNothing work.now lanes slots) }
{
    let Opened {
        domain,
        mut root,
        seats,
    } = open_cells(alloc, work, lanes, slots)?;
    let ends = run_lanes(rt, alloc, &domain, seats, gate, work, lanes)?;
    let done = part_lanes(alloc, &domain, ends)?;
    let text = finish(rt, alloc, &domain, &mut root, weigh, work, done)?;
    Ok(EpochCounted { text, root })
}
