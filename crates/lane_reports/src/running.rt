//! How the words of some files are counted.
ghost use Rattle.std.specs.Prelude.{◌≡◌, ◌≤◌, IfErr, IfOk};
ghost use Rattle.law_lesson.specs.plain_state.Limits.{most_slots};
ghost use Rattle.tally_sums.specs.cdrc_text.Text.{IsReport};
ghost use Rattle.words_rest.specs.deleter.Weighing.{Weighs};
ghost use Rattle.lane_domain.specs.lane_files.Ready.{IsReady};
ghost use Rattle.lane_domain.specs.lane_files.Lanes.{HasGrants};
ghost use Rattle.lane_domain.specs.lane_files.Work.{IsWork};
ghost use Rattle.lane_domain.specs.Opened.{HasOnlyLaid, IsDomainFor, fresh_lanes};
ghost use Rattle.lane_domain.specs.Sizes.{IsWithinLimits, most_lanes, texts_in};
ghost use Rattle.lane_reports.specs.Counting.{CountsAll};
ghost use Rattle.lane_reports.specs.HolderCounts.{CountsHolders};
ghost use Rattle.lane_reports.specs.Refusals.{IsWhyNothing};
ghost use Rattle.lane_reports.specs.Reporting.{IsLast};

use crate::counted::{CountError, Counted};
use crate::finishing::finish;
use crate::parting::part_lanes;
use crate::refusal::RowsError;
use lane_domain::{
    Gate, NodeKind, OpenLanesError, Opened, RecordKind, Work, open_lanes, run_lanes,
};
use law_lesson::PayloadKind;
use std::alloc::Global;
use std::sync::Wait;
use std::thread::Threads;
use words_rest::{Deleter, Form, PairKind};

/// Opens the domain.
fn open(
    alloc: Global,
    work: &Work,
    lanes: u32,
    slots: u32,
    form: Form,
) -> Result<Opened, CountError>
    requires work { IsWork work.now }
    requires within { IsWithinLimits work.now }
    requires lanes { (1 ≤ lanes) × (lanes ≤ most_lanes) }
    requires slots { (1 ≤ slots) × (slots ≤ most_slots) }
    ensures domain { IfOk result (λ opened.
        IsDomainFor work.now lanes slots form opened.domain) }
    ensures grants { IfOk result (λ opened. HasGrants opened.domain work.now) }
    ensures ready { IfOk result (λ opened. IsReady opened.domain opened.shared opened.root) }
    ensures root { IfOk result (λ opened. HasOnlyLaid form opened.root) }
    ensures seats { IfOk result (λ opened. opened.seats.items
        ≡ fresh_lanes opened.domain lanes) }
    ensures why { IfErr result (IsWhyNothing
        ⟦<PairKind<NodeKind, RecordKind> as PayloadKind>⟧.fits work.now lanes slots form) }
{
    match open_lanes(alloc, work, lanes, slots, form) {
        Ok(opened) => Ok(opened),
        Err(OpenLanesError::OutOfMemory) => Err(CountError::OutOfMemory),
        Err(OpenLanesError::Full(unlaid)) => Err(CountError::Full(unlaid.root)),
    }
}

/// Counts the words of some files on so many lanes, in a domain with so many slots and a queue of this form. It answers
/// the report, seat 0, which is alone by then, and how often each seat counted each word.
///
/// It is refused where there is no memory. `Full` comes where seat 0 found each slot taken before the lanes began,
/// which can't be where there is a slot for each make; or where a lane stopped as it was to make an object. `Spent`
/// comes where a seat has no add left. Of several lanes that stopped it answers for the first. It may wait for other
/// threads. It takes the steps of `open_lanes`, of the lanes, of `gather`, `take_all` and `rows_of`, and of two
/// audits.
pub fn count_words<R: Threads + Wait + Sync, G: Gate + Sync, F: Fn(&[u64; 16]) -> u64 + Sync>(
    rt: &R,
    alloc: Global,
    work: &Work,
    lanes: u32,
    slots: u32,
    form: Form,
    gate: &G,
    weigh: &Deleter<PairKind<NodeKind, RecordKind>, F>,
) -> Result<Counted, CountError>
    requires work { IsWork work.now }
    requires within { IsWithinLimits work.now }
    requires lanes { (1 ≤ lanes) × (lanes ≤ most_lanes) }
    requires slots { (1 ≤ slots) × (slots ≤ most_slots) }
    requires weighs { Weighs ⟦<PairKind<NodeKind, RecordKind> as PayloadKind>⟧.fits
        ⟦<PairKind<NodeKind, RecordKind> as PayloadKind>⟧.weight F.Fn weigh.now }
    ensures report { IfOk result (λ counted.
        IsReport (texts_in work.now) work.now.rounds counted.text.items) }
    ensures counts { IfOk result (λ counted.
        CountsAll work.now counted.root counted.tallies.items) }
    ensures holders { IfOk result (λ counted.
        CountsHolders work.now counted.root counted.text.items) }
    ensures root { IfOk result (λ counted. IsLast work.now lanes slots form counted.root) }
    ensures why { IfErr result (IsWhyNothing
        ⟦<PairKind<NodeKind, RecordKind> as PayloadKind>⟧.fits work.now lanes slots form) }
{
    let Opened {
        domain,
        mut root,
        seats,
        shared,
    } = open(alloc, work, lanes, slots, form)?;
    let ends = run_lanes(rt, alloc, &domain, seats, &shared, gate, weigh, work)?;
    let done = part_lanes(alloc, ends)?;
    match finish(rt, alloc, &domain, &mut root, &shared, weigh, work, done) {
        Ok((text, tallies)) => Ok(Counted {
            text,
            root,
            tallies,
        }),
        Err(RowsError::Spent) => Err(CountError::Spent(root)),
        Err(RowsError::OutOfMemory) => Err(CountError::OutOfMemory),
    }
}
