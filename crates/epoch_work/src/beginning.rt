//! With how many slots a count begins, and that it begins anew where these are too few.
ghost use Rattle.std.specs.Prelude.{◌≡◌, ◌≤◌, IfErr, IfOk, None};
ghost use Rattle.deleter.specs.Weighing.{Weighs};
ghost use Rattle.directory_law.specs.Bytes.{IsPiece, piece_weight};
ghost use Rattle.file_work.specs.Limits.{IsPlan, most_of};
ghost use Rattle.file_work.specs.lane_work.Sizes.{IsWithinLimits, most_lanes};
ghost use Rattle.file_work.specs.lane_work.Work.{IsWork};
ghost use Rattle.epoch_work.specs.Beginnings.{IsCountOf, IsWhyStopped};

use cell_reports::{
    Deleter, EpochCountError, EpochCounted, Gate, OutOfMemory, RecordKind, Work, count_cells,
};
use file_work::{Plan, count_distinct_slots, slots_that_serve};
use std::alloc::Global;
use std::sync::Wait;
use std::thread::Threads;

/// How many slots lanes have under way beside the records in cells: records of words that two lanes make at once, of
/// which all but one are given up.
const UNDER_WAY: u64 = 1_024;

/// How many slots the work is likely to need on so many lanes: those of its distinct words' records, which are enough
/// for one lane, and with more lanes what these can have under way. A step for each piece.
fn guess(alloc: Global, work: &Work, lanes: u32) -> Result<u64, OutOfMemory>
    requires work { IsWork work.now }
    requires lanes { lanes ≤ most_lanes }
{
    let slots = count_distinct_slots(alloc, work)?;
    Ok(if lanes > 1 {
        slots.saturating_add(UNDER_WAY)
    } else {
        slots
    })
}

/// With so many slots the work is begun where none are asked for.
fn slots_to_begin(alloc: Global, plan: Plan, work: &Work) -> Result<u32, OutOfMemory>
    requires plan { IsPlan plan }
    requires work { IsWork work.now × IsWithinLimits work.now }
    ensures { IfOk result (λ slots. (1 ≤ slots) × (slots ≤ most_of work.now)) }
{
    let most = slots_that_serve(work);
    let slots = match plan.first {
        Some(first) => u64::from(first),
        None => guess(alloc, work, plan.lanes)?,
    };
    Ok(slots.min(u64::from(most)).max(1) as u32)
}

/// Counts the work on a domain of so many slots; and anew, on one that has as many as always serve, where a seat
/// found each slot taken. So it is never refused as full. What the first count told is forgotten: its seats are gone
/// with their domain, and the contents are those that were given. It takes the steps of `count_cells`, twice where it
/// began anew.
fn count_from<R: Threads + Wait + Sync, G: Gate + Sync, D: Fn(&[u64; 16]) -> u64>(
    rt: &R,
    alloc: Global,
    lanes: u32,
    work: &Work,
    slots: u32,
    gate: &G,
    weigh: &Deleter<RecordKind, D>,
) -> Result<EpochCounted, EpochCountError>
    requires lanes { (1 ≤ lanes) × (lanes ≤ most_lanes) }
    requires work { IsWork work.now × IsWithinLimits work.now }
    requires slots { (1 ≤ slots) × (slots ≤ most_of work.now) }
    requires weighs { Weighs IsPiece piece_weight D.Fn weigh.now }
    ensures done { IfOk result (IsCountOf work.now lanes None) }
    ensures why { IfErr result (IsWhyStopped work.now lanes None) }
{
    match count_cells(rt, alloc, work, lanes, slots, gate, weigh) {
        Err(EpochCountError::Full(_seat)) => {
            count_cells(rt, alloc, work, lanes, slots_that_serve(work), gate, weigh)
        }
        counted => counted,
    }
}

/// Counts the work on a domain of the slots that are asked for; where none are, of as many as it needs.
pub(crate) fn count_work<R: Threads + Wait + Sync, G: Gate + Sync, D: Fn(&[u64; 16]) -> u64>(
    rt: &R,
    alloc: Global,
    plan: Plan,
    work: &Work,
    gate: &G,
    weigh: &Deleter<RecordKind, D>,
) -> Result<EpochCounted, EpochCountError>
    requires plan { IsPlan plan }
    requires work { IsWork work.now × IsWithinLimits work.now }
    requires weighs { Weighs IsPiece piece_weight D.Fn weigh.now }
    ensures done { IfOk result (IsCountOf work.now plan.lanes plan.slots) }
    ensures why { IfErr result (IsWhyStopped work.now plan.lanes plan.slots) }
{
    match plan.slots {
        Some(slots) => count_cells(rt, alloc, work, plan.lanes, slots, gate, weigh),
        None => {
            let slots = slots_to_begin(alloc, plan, work)?;
            count_from(rt, alloc, plan.lanes, work, slots, gate, weigh)
        }
    }
}
