//! With how many slots a count begins, and that it begins anew where these are too few.
ghost use Rattle.std.specs.Prelude.{◌≡◌, ◌≤◌, IfErr, IfOk, None};
ghost use Rattle.lane_reports.specs.deleter.Weighing.{Weighs};
ghost use Rattle.lane_reports.specs.lane_files.Work.{IsWork};
ghost use Rattle.lane_reports.specs.lane_domain.Sizes.{IsWithinLimits, most_lanes};
ghost use Rattle.file_work.specs.Limits.{IsPlan, most_of};
ghost use Rattle.words_work.specs.Beginnings.{IsCountOf, IsWhyStopped};

use file_work::{Plan, count_distinct_slots, slots_that_serve};
use lane_reports::{
    CountError, Counted, Deleter, Gate, NodeKind, OutOfMemory, PairKind, PayloadKind, RecordKind,
    Work, count_pieces, count_words,
};
use std::alloc::Global;
use std::sync::Wait;
use std::thread::Threads;

/// How many slots lanes have under way beside those that grow with the lanes: nodes that are popped and wait to be
/// freed.
const UNDER_WAY: u64 = 16_384;

/// On so many lanes a slot for the node of each piece is guessed.
const LANES_THAT_WAIT: u64 = 12;

/// How many slots the work is likely to need on so many lanes: those of its distinct words' records, and what lanes
/// can have under way, as nodes that wait or are not yet freed, and records of words that two lanes make at once. With
/// more lanes than one that is some for each twelve pieces besides, as many as there are lanes: while a lane waits for
/// a processor with a node under its announcement, the others pop on, and what they pop is freed behind that node. It
/// needn't be enough. A step for each piece.
fn guess(alloc: Global, work: &Work, lanes: u32) -> Result<u64, OutOfMemory>
    requires work { IsWork work.now }
    requires lanes { lanes ≤ most_lanes }
{
    let seats = u64::from(lanes) + 1;
    let mut slots = UNDER_WAY + 64 * seats * seats;
    if lanes > 1 {
        let waiting = u64::from(lanes).min(LANES_THAT_WAIT);
        slots = slots.saturating_add(
            (count_pieces(work) / LANES_THAT_WAIT).saturating_mul(waiting),
        );
    }
    Ok(slots.saturating_add(count_distinct_slots(alloc, work)?))
}

/// With so many slots the work is begun where none are asked for. Records of earlier rounds keep their slots, so with
/// more than one round it is as many as always serve.
fn slots_to_begin(alloc: Global, plan: Plan, work: &Work) -> Result<u32, OutOfMemory>
    requires plan { IsPlan plan }
    requires work { IsWork work.now × IsWithinLimits work.now }
    ensures { IfOk result (λ slots. (1 ≤ slots) × (slots ≤ most_of work.now)) }
{
    let most = slots_that_serve(work);
    let slots = match plan.first {
        Some(first) => u64::from(first),
        None if work.rounds > 1 => u64::from(most),
        None => guess(alloc, work, plan.lanes)?,
    };
    Ok(slots.min(u64::from(most)).max(1) as u32)
}

/// Counts the work on a domain of so many slots; and anew, on one that has as many as always serve, where a seat
/// found each slot taken. So it is never refused as full. What the first count told is forgotten: its seats are gone
/// with their domain, and the contents are those that were given. It takes the steps of `count_words`, twice where it
/// began anew.
fn count_from<R: Threads + Wait + Sync, G: Gate + Sync, D: Fn(&[u64; 16]) -> u64 + Sync>(
    rt: &R,
    alloc: Global,
    plan: Plan,
    work: &Work,
    slots: u32,
    gate: &G,
    weigh: &Deleter<PairKind<NodeKind, RecordKind>, D>,
) -> Result<Counted, CountError>
    requires plan { IsPlan plan }
    requires work { IsWork work.now × IsWithinLimits work.now }
    requires slots { (1 ≤ slots) × (slots ≤ most_of work.now) }
    requires weighs { Weighs ⟦<PairKind<NodeKind, RecordKind> as PayloadKind>⟧.fits
        ⟦<PairKind<NodeKind, RecordKind> as PayloadKind>⟧.weight D.Fn weigh.now }
    ensures done { IfOk result (IsCountOf work.now plan.lanes plan.form None) }
    ensures why { IfErr result (IsWhyStopped ⟦<PairKind<NodeKind, RecordKind> as PayloadKind>⟧.fits
        work.now plan.lanes plan.form None) }
{
    match count_words(rt, alloc, work, plan.lanes, slots, plan.form, gate, weigh) {
        Err(CountError::Full(_seat)) => {
            let most = slots_that_serve(work);
            count_words(rt, alloc, work, plan.lanes, most, plan.form, gate, weigh)
        }
        counted => counted,
    }
}

/// Counts the work on a domain of the slots that are asked for; where none are, of as many as it needs.
pub(crate) fn count_work<R: Threads + Wait + Sync, G: Gate + Sync, D: Fn(&[u64; 16]) -> u64 + Sync>(
    rt: &R,
    alloc: Global,
    plan: Plan,
    work: &Work,
    gate: &G,
    weigh: &Deleter<PairKind<NodeKind, RecordKind>, D>,
) -> Result<Counted, CountError>
    requires plan { IsPlan plan }
    requires work { IsWork work.now × IsWithinLimits work.now }
    requires weighs { Weighs ⟦<PairKind<NodeKind, RecordKind> as PayloadKind>⟧.fits
        ⟦<PairKind<NodeKind, RecordKind> as PayloadKind>⟧.weight D.Fn weigh.now }
    ensures done { IfOk result (IsCountOf work.now plan.lanes plan.form plan.slots) }
    ensures why { IfErr result (IsWhyStopped ⟦<PairKind<NodeKind, RecordKind> as PayloadKind>⟧.fits
        work.now plan.lanes plan.form plan.slots) }
{
    match plan.slots {
        Some(slots) => { count_words(rt, alloc, work, plan.lanes, slots, plan.form, gate, weigh) }
        None => {
            let slots = slots_to_begin(alloc, plan, work)?;
            count_from(rt, alloc, plan, work, slots, gate, weigh)
        }
    }
}
