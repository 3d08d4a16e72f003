//! A domain with a directory of texts, for some threads.
ghost use Rattle.std.specs.Prelude.{◌+◌, ◌*◌, ◌≤◌, All, IfOk};
ghost use Rattle.call_times.specs.Interning.{HasGrants, IsFreeToIntern};
ghost use Rattle.turn_loops.specs.Placings.{AreOfThreads, AreSeats};

use crate::fault::Fault;
use std::alloc::Global;
use turn_loops::{Domain, OutOfMemory, Placing, Quota, Seat, Shape, open_domain, take_placed};
use weak_intern::DirectoryLaw;

/// How many texts a thread interns.
pub const TURNS: u32 = 250_000;

/// As much as a seat may ever have.
const WIDE: Quota = Quota {
    makes: 1 << 40,
    adds: 1 << 40,
};

/// A domain with seat 0, and a seat for each thread.
#[derive(Drop)]
pub struct OpenedDirectory {
    pub domain: Domain<DirectoryLaw>,
    pub root: Seat<DirectoryLaw>,
    pub workers: Vec<Seat<DirectoryLaw>>,
}

/// A domain of 2(threads + 1) seats, and these seats. Its directory has a cell for each intern, as its law asks, and a
/// ticket for each thread gives the interns of that thread.
fn open_all(
    alloc: Global,
    threads: u32,
) -> Result<(Domain<DirectoryLaw>, Vec<Seat<DirectoryLaw>>), Fault>
    requires { (1 ≤ threads) × (threads ≤ 15) }
    ensures grants { IfOk result (λ opened. HasGrants threads opened.0) }
    ensures seats { IfOk result (λ opened. AreSeats (2 * threads + 2) opened.1.items) }
    ensures free { IfOk result (λ opened. All (IsFreeToIntern opened.0) opened.1.items) }
{
    let seats = 2 * threads + 2;
    let shape = Shape {
        seats,
        slots: 1 << 20,
        cells: 4,
        weak_cells: TURNS * threads,
        batch: 4 * seats,
    };
    let interns = vec![in alloc; u64::from(TURNS); threads as usize].map_err(OutOfMemory::from)?;
    let quotas = vec![in alloc; WIDE; seats as usize].map_err(OutOfMemory::from)?;
    let law = DirectoryLaw::granted(0, TURNS * threads, interns);
    Ok(open_domain(alloc, shape, &quotas, law)?)
}

/// Opens a domain of 2(threads + 1) seats, and takes for each thread the seat that the placing gives it.
pub fn open_directory(
    alloc: Global,
    placing: Placing,
    threads: u32,
) -> Result<OpenedDirectory, Fault>
    requires { (1 ≤ threads) × (threads ≤ 15) }
    ensures grants { IfOk result (λ opened. HasGrants threads opened.domain) }
    ensures workers { IfOk result (λ opened.
        All (IsFreeToIntern opened.domain) opened.workers.items) }
    ensures placed { IfOk result (λ opened. AreOfThreads placing threads opened.workers.items) }
{
    let (domain, seats) = open_all(alloc, threads)?;
    let (root, workers) = take_placed(alloc, seats, placing, threads)?;
    Ok(OpenedDirectory {
        domain,
        root,
        workers,
    })
}
