//! What no lane popped is popped by seat 0.
ghost use Rattle.std.specs.Prelude.{◌≡◌, ◌≤◌, ◌∷◌, ◌^◌, IfErr, IfOk};
ghost use Rattle.std.specs.List.{sum_by};
ghost use Rattle.tally_sums.specs.cdrc_text.Tally.{total_of};
ghost use Rattle.lane_domain.specs.lane_files.Ready.{IsReady, Owns};
ghost use Rattle.lane_domain.specs.Sizes.{IsWithinLimits};
ghost use Rattle.lane_domain.specs.lane_files.Work.{IsWork};
ghost use Rattle.lane_reports.specs.Rows.{IsWhyNoRows};
ghost use Rattle.lane_reports.specs.Taking.{CountsRest, TakesRest};

use crate::popping::take_all;
use crate::refusal::RowsError;
use domain_audit::{Domain, Seat};
use lane_domain::{LaneError, Shared, WordsLaw, Work, count_pieces};
use std::alloc::Global;
use std::sync::Wait;
use tally_sums::{OutOfMemory, Tally};

/// How many pieces the tallies counted together, as long as that is below 2^64: never more than they counted.
fn all_counted(tallies: &[Tally]) -> u64
    ensures { result ≤ sum_by total_of tallies.now }
{
    let mut sum: u64 = 0;
    for tally in tallies {
        sum = sum.saturating_add(tally.total());
    }
    sum
}

/// Seat 0 pops so many items, and counts their words.
fn count_rest<R: Wait>(
    rt: &R,
    alloc: Global,
    domain: &Domain<WordsLaw>,
    root: &mut Seat<WordsLaw>,
    shared: &Shared,
    most: u64,
) -> Result<Tally, RowsError>
    requires ready { IsReady domain.now shared.now root.old }
    requires few { most ≤ 2 ^ 62 }
    ensures counts { IfOk result (λ tally. CountsRest most root.old root.new tally) }
    ensures why { IfErr result (λ error. IsWhyNoRows error root.new) }
    ensures owns { Owns root.old.view.core.owned root.old root.new }
    ensures ready { IsReady domain.now shared.now root.new }
{
    let mut tally = Tally::new(alloc);
    match take_all(rt, domain, root, shared, most, &mut tally) {
        Ok(()) => Ok(tally),
        Err(LaneError::Refused(_)) => Err(RowsError::Spent),
        Err(LaneError::OutOfMemory) => Err(RowsError::OutOfMemory),
    }
}

/// A tally, and then these.
fn put_first(tally: Tally, mut others: Vec<Tally>) -> Result<Vec<Tally>, OutOfMemory>
    ensures { IfOk result (λ all. all.items ≡ tally ∷ others.items) }
{
    others.insert(0, tally)?;
    Ok(others)
}

/// Seat 0 pops as many items as the lanes left: all pieces of all rounds, less what the lanes' tallies counted. It
/// answers its own tally, and then those of the lanes.
pub(crate) fn take_rest<R: Wait>(
    rt: &R,
    alloc: Global,
    domain: &Domain<WordsLaw>,
    root: &mut Seat<WordsLaw>,
    shared: &Shared,
    work: &Work,
    tallies: Vec<Tally>,
) -> Result<Vec<Tally>, RowsError>
    requires ready { IsReady domain.now shared.now root.old }
    requires work { IsWork work.now }
    requires within { IsWithinLimits work.now }
    ensures takes { IfOk result (λ all.
        TakesRest work.now root.old root.new tallies.items all.items) }
    ensures why { IfErr result (λ error. IsWhyNoRows error root.new) }
    ensures owns { Owns root.old.view.core.owned root.old root.new }
    ensures ready { IsReady domain.now shared.now root.new }
{
    let all = work.rounds * count_pieces(work);
    let most = all.saturating_sub(all_counted(&tallies));
    let tally = count_rest(rt, alloc, domain, root, shared, most)?;
    let tallies = put_first(tally, tallies)?;
    Ok(tallies)
}
