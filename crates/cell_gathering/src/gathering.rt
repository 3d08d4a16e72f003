//! Seat 0 takes over what the lanes have.
ghost use Rattle.std.specs.Prelude.{◌≡◌, ◌+◌, ◌++◌, ◌≤◌, IfOk, OnErr, length, vec_capacity, vec_len};
ghost use Rattle.std.specs.List.{sum_by};
ghost use Rattle.cell_lanes.specs.Ready.{IsReady};
ghost use Rattle.cell_gathering.specs.Gathering.{Gathers, IsBare, kept_by};
ghost use Rattle.cell_gathering.specs.Ran.{EachRan};

use crate::done::{Done, Gathered};
use cell_lanes::{CellLaw, EpochDomain, EpochSeat, Lane, Strong, Work, e_leave};
use std::alloc::Global;
use tally_sums::OutOfMemory;

/// The seats of lanes that have run leave, in order, and seat 0 takes over what they have. It answers the lanes'
/// tallies, in order, and the references that they kept, one lane's after the other's. One event for each lane.
///
/// Refused where there is no memory: then no seat has left, and seat 0 is as it was. Linear in the lanes and the
/// references.
pub fn gather(
    alloc: Global,
    domain: &EpochDomain<CellLaw>,
    root: &mut EpochSeat<CellLaw>,
    work: &Work,
    done: Vec<Done>,
) -> Result<Gathered, OutOfMemory>
    requires bare { IsBare domain.now root.old }
    requires ran { EachRan domain.now work.now (length done.items) done.items }
    ensures gathers { IfOk result (λ gathered. Gathers work.now done.items root.new
        gathered.tallies.items gathered.kept.items) }
    ensures refused { OnErr result (root.new ≡ root.old) }
    ensures ready { IsReady domain.now root.new }
{
    let mut tallies = Vec::with_capacity(alloc, done.len())?;
    let mut kept = Vec::with_capacity(alloc, kept_in(&done)?)?;
    for one in done {
        let Done { seat, lane } = one;
        let Lane { tally, keeper, .. } = lane;
        e_leave(domain, root, seat);
        tallies.push_reserved(tally);
        keep_all(&mut kept, keeper.kept);
    }
    Ok(Gathered { tallies, kept })
}

/// How many references the lanes keep together. Linear in the lanes.
fn kept_in(done: &[Done]) -> Result<usize, OutOfMemory>
    ensures { IfOk result (λ count. count ≡ sum_by (λ one. length (kept_by one)) done.now) }
{
    let mut count: usize = 0;
    for one in done {
        count = count
            .checked_add(one.lane.keeper.kept.len())
            .ok_or(OutOfMemory)?;
    }
    Ok(count)
}

/// Puts some references behind others, for which there is room. Linear in those that it puts there.
fn keep_all(kept: &mut Vec<Strong>, more: Vec<Strong>)
    requires room { vec_len kept.old + length more.items ≤ vec_capacity kept.old }
    ensures kept { kept.new.items ≡ kept.old.items ++ more.items }
    ensures room { vec_capacity kept.new ≡ vec_capacity kept.old }
{
    for handle in more {
        kept.push_reserved(handle);
    }
}
