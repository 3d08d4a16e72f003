//! What the threads are given.
ghost use Rattle.std.specs.Prelude.{◌^◌, ◌<◌, IfOk, length};
ghost use Rattle.cell_domain.specs.Jobs.{AreJobs};

use cell_lanes::{CellLaw, EpochSeat};
use lane_work::OutOfMemory;
use std::alloc::Global;

/// A lane's number and its seat.
#[derive(Drop)]
pub(crate) struct Job {
    pub number: u32,
    pub seat: EpochSeat<CellLaw>,
}

/// A job for each seat, in order, with the seat's place as its number.
pub(crate) fn list_jobs(
    alloc: Global,
    mut seats: Vec<EpochSeat<CellLaw>>,
) -> Result<Vec<Job>, OutOfMemory>
    requires few { length seats.items < 2 ^ 32 }
    ensures { IfOk result (λ jobs. AreJobs (length seats.items) seats.items jobs.items) }
{
    let mut jobs = Vec::with_capacity(alloc, seats.len())?;
    for number in 0..seats.len() as u32 {
        let seat = seats.remove(0);
        jobs.push(Job { number, seat })?;
    }
    Ok(jobs)
}
