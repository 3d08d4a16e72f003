//! A domain whose readers open regions, for some threads.
ghost use Rattle.std.specs.Prelude.{◌≡◌, ◌<◌, ◌≤◌, ◌+◌, All, IfOk, length};
ghost use Rattle.epoch_refs.specs.Walks.{IsFree};

use epoch_refs::{EpochDomain, EpochSeat, EpochShape, open_epoch};
use std::alloc::Global;
use turn_loops::{Objects, OpenError, OutOfMemory, Quota};

/// How many cells there are.
pub(crate) const CELLS: u32 = 16;

/// As much as a seat may ever have.
const WIDE: Quota = Quota {
    makes: 1 << 40,
    adds: 1 << 40,
};

/// The seat of a thread, and the number of the thread, from 1 on.
#[derive(Drop)]
pub struct Worker {
    pub thread: u32,
    pub seat: EpochSeat<Objects>,
}

/// A domain with seat 0, and a worker for each thread.
#[derive(Drop)]
pub struct OpenedRegions {
    pub domain: EpochDomain<Objects>,
    pub root: EpochSeat<Objects>,
    pub workers: Vec<Worker>,
}

/// A domain of so many seats, and these seats.
fn open_seats(
    alloc: Global,
    seats: u32,
) -> Result<(EpochDomain<Objects>, Vec<EpochSeat<Objects>>), OpenError>
    ensures cells { IfOk result (λ opened. opened.0.shape.cells ≡ 16) }
    ensures count { IfOk result (λ opened. length opened.1.items ≡ seats) }
    ensures free { IfOk result (λ opened. All (IsFree opened.0) opened.1.items) }
{
    let shape = EpochShape {
        seats,
        slots: 1 << 18,
        cells: CELLS,
    };
    let quotas = vec![in alloc; WIDE; seats as usize].map_err(OutOfMemory::from)?;
    let opened = open_epoch(alloc, shape, &quotas, Objects::new())?;
    Ok(opened)
}

/// A worker for each of these seats, with numbers from 1 on.
fn workers_of(
    alloc: Global,
    domain: &EpochDomain<Objects>,
    mut seats: Vec<EpochSeat<Objects>>,
    threads: u32,
) -> Result<Vec<Worker>, OutOfMemory>
    requires count { length seats.items ≡ threads }
    requires free { All (IsFree domain.now) seats.items }
    ensures count { IfOk result (λ workers. length workers.items ≡ threads) }
    ensures free { IfOk result (λ workers. All (λ w. IsFree domain.now w.seat) workers.items) }
{
    let mut workers = Vec::new(alloc);
    for taken in 0..threads {
        let seat = seats.remove(0);
        workers.push(Worker {
            thread: taken + 1,
            seat,
        })?;
    }
    Ok(workers)
}

/// Opens a domain of threads + 1 seats and 16 cells, and has a worker for each thread, the first thread's first.
pub fn open_regions(alloc: Global, threads: u32) -> Result<OpenedRegions, OpenError>
    requires { (1 ≤ threads) × (threads ≤ 15) }
    ensures cells { IfOk result (λ opened. opened.domain.shape.cells ≡ 16) }
    ensures root { IfOk result (λ opened. IsFree opened.domain opened.root) }
    ensures workers { IfOk result (λ opened.
        All (λ w. IsFree opened.domain w.seat) opened.workers.items) }
    ensures count { IfOk result (λ opened. length opened.workers.items ≡ threads) }
{
    let (domain, mut seats) = open_seats(alloc, threads + 1)?;
    let root = seats.remove(0);
    let workers = workers_of(alloc, &domain, seats, threads)?;
    Ok(OpenedRegions {
        domain,
        root,
        workers,
    })
}
