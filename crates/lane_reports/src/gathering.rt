//! Seat 0 takes over what the lanes have.
ghost use Rattle.std.specs.Prelude.{◌≡◌, ◌+◌, ◌++◌, ◌≤◌, [], OnErr, OnOk, IfOk, length, vec_capacity, vec_len};
ghost use Rattle.std.specs.List.{sum_by};
ghost use Rattle.domain_audit.specs.domain_rule.Views.{IsAlone};
ghost use Rattle.domain_audit.specs.control_word.Resting.{IsUnderNone};
ghost use Rattle.lane_domain.specs.lane_files.Ready.{IsReady};
ghost use Rattle.lane_reports.specs.Gathering.{EachDid, Gathers, IsBare, kept_by};

use crate::done::{Done, Gathered};
use domain_audit::{Domain, Seat, Strong};
use lane_domain::{Lane, Shared, WordsLaw, Work};
use std::alloc::Global;
use tally_sums::OutOfMemory;

/// The seats of lanes that have run leave, one after the other, and seat 0 takes over what they have. It answers the
/// lanes' tallies, in order, and the references that they kept, one lane's after the other's.
///
/// Refused where there is no memory: then no seat has left, and seat 0 is as it was. Linear in the lanes and the
/// references.
pub fn gather(
    alloc: Global,
    domain: &Domain<WordsLaw>,
    root: &mut Seat<WordsLaw>,
    shared: &Shared,
    work: &Work,
    done: Vec<Done>,
) -> Result<Gathered, OutOfMemory>
    requires ready { IsReady domain.now shared.now root.old }
    requires bare { IsBare root.old }
    requires did { EachDid work.now domain.now 1 done.items }
    ensures gathers { IfOk result (Gathers work.now done.items root.old root.new) }
    ensures alone { OnOk result (length done.items + 1 ≡ domain.now.shape.seats
        → IsAlone root.new.view) }
    ensures none { IsUnderNone root.new.view.core }
    ensures refused { OnErr result (root.new ≡ root.old) }
    ensures ready { IsReady domain.now shared.now root.new }
{
    let mut tallies = Vec::with_capacity(alloc, done.len())?;
    let mut kept = Vec::with_capacity(alloc, kept_in(&done)?)?;
    for one in done {
        let Done { seat, lane } = one;
        let Lane { tally, keeper, .. } = lane;
        domain.leave(root, seat);
        tallies.push_reserved(tally);
        keep_all(&mut kept, keeper.kept);
    }
    Ok(Gathered { tallies, kept })
}

/// How many references the lanes keep together. Linear in the lanes.
fn kept_in(done: &[Done]) -> Result<usize, OutOfMemory>
    ensures { IfOk result (λ count. count ≡ sum_by (λ one. length (kept_by one)) done.now) }
{
    let mut count: usize = 0;
    for one in done {
        count = count
            .checked_add(one.lane.keeper.kept.len())
            .ok_or(OutOfMemory)?;
    }
    Ok(count)
}

/// Puts some references behind others, for which there is room. Linear in those that it puts there.
fn keep_all(kept: &mut Vec<Strong>, more: Vec<Strong>)
    requires room { vec_len kept.old + length more.items ≤ vec_capacity kept.old }
    ensures kept { kept.new.items ≡ kept.old.items ++ more.items }
    ensures room { vec_capacity kept.new ≡ vec_capacity kept.old }
{
    for handle in more {
        kept.push_reserved(handle);
    }
}
