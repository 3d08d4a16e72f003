//! A domain for some threads.
ghost use Rattle.std.specs.Prelude.{◌<◌, ◌≤◌, ⊤, All, IfOk};
ghost use Rattle.turn_loops.specs.Free.{IsFree};
ghost use Rattle.turn_loops.specs.Placings.{AreOfThreads};
ghost use Rattle.turn_loops.specs.Trials.{weightless};

use crate::placing::{Placing, take_placed};
use slot_store::{Domain, Seat};
use snapshot_ptr::{NoLaw, OpenError, OutOfMemory, PayloadKind, Quota, Shape, open_domain};
use std::alloc::Global;

/// Objects with whatever payload, which weigh nothing.
pub struct AnyPayload;

impl PayloadKind for AnyPayload {
    ghost fits = { λ words. ⊤ };

    ghost weight = { λ words. 0 };

    fn weigh(_payload: &[u64; 16]) -> u64 {
        0
    }

    ghost bounded = { weightless };
}

pub type Objects = NoLaw<AnyPayload>;

/// As much as a seat may ever have.
const WIDE: Quota = Quota {
    makes: 1 << 40,
    adds: 1 << 40,
};

/// A domain with seat 0, and a seat for each thread.
#[derive(Drop)]
pub struct Opened {
    pub domain: Domain<Objects>,
    pub root: Seat<Objects>,
    pub workers: Vec<Seat<Objects>>,
}

/// Opens a domain of 2(threads + 1) seats, and takes for each thread the seat that the placing gives it.
pub fn open(alloc: Global, placing: Placing, threads: u32) -> Result<Opened, OpenError>
    requires { (1 ≤ threads) × (threads ≤ 15) }
    ensures cells { IfOk result (λ opened. 0 < opened.domain.shape.cells) }
    ensures slots { IfOk result (λ opened. 0 < opened.domain.shape.slots) }
    ensures root { IfOk result (λ opened. IsFree opened.domain opened.root) }
    ensures workers { IfOk result (λ opened. All (IsFree opened.domain) opened.workers.items) }
    ensures placed { IfOk result (λ opened. AreOfThreads placing threads opened.workers.items) }
{
    let many = 2 * threads + 2;
    let shape = Shape {
        seats: many,
        slots: 1 << 20,
        cells: 4,
        weak_cells: 15_013,
        batch: 4 * many,
    };
    let quotas = vec![in alloc; WIDE; many as usize].map_err(OutOfMemory::from)?;
    let (domain, seats) = open_domain(alloc, shape, &quotas, Objects::new())?;
    let (root, workers) = take_placed(alloc, seats, placing, threads)?;
    Ok(Opened {
        domain,
        root,
        workers,
    })
}
