//! A domain with a queue, for some threads.
ghost use Rattle.std.specs.Prelude.{◌≤◌, All, IfOk};
ghost use Rattle.linked_queue.specs.Queues.{CanLay, IsQueueOf};
ghost use Rattle.turn_loops.specs.Placings.{AreOfThreads};
ghost use Rattle.queue_turns.specs.Queueing.{IsFreeToQueue};

use linked_queue::QueueLaw;
use std::alloc::Global;
use turn_loops::{
    Domain, OpenError, OutOfMemory, Placing, Quota, Seat, Shape, open_domain, take_placed,
};

/// The cell of the queue's first node.
pub(crate) const HEAD: u32 = 0;

/// The cell of its last node.
pub(crate) const TAIL: u32 = 1;

/// As much as a seat may ever have.
const WIDE: Quota = Quota {
    makes: 1 << 40,
    adds: 1 << 40,
};

/// A domain with seat 0, and a seat for each thread.
#[derive(Drop)]
pub struct OpenedQueue {
    pub domain: Domain<QueueLaw>,
    pub root: Seat<QueueLaw>,
    pub workers: Vec<Seat<QueueLaw>>,
}

/// Opens a domain of 2(threads + 1) seats with a queue over its cells 0 and 1, and takes for each thread the seat that
/// the placing gives it.
pub fn open_queue(alloc: Global, placing: Placing, threads: u32) -> Result<OpenedQueue, OpenError>
    requires { (1 ≤ threads) × (threads ≤ 15) }
    ensures queue { IfOk result (λ opened. IsQueueOf 0 1 opened.domain) }
    ensures root { IfOk result (λ opened. IsFreeToQueue opened.domain opened.root) }
    ensures lays { IfOk result (λ opened. CanLay opened.root.view.client) }
    ensures workers { IfOk result (λ opened.
        All (IsFreeToQueue opened.domain) opened.workers.items) }
    ensures placed { IfOk result (λ opened. AreOfThreads placing threads opened.workers.items) }
{
    let many = 2 * threads + 2;
    let shape = Shape {
        seats: many,
        slots: 1 << 20,
        cells: 4,
        weak_cells: 15_013,
        batch: 4 * many,
    };
    let quotas = vec![in alloc; WIDE; many as usize].map_err(OutOfMemory::from)?;
    let law = QueueLaw::linked(HEAD, TAIL);
    let (domain, seats) = open_domain(alloc, shape, &quotas, law)?;
    let (root, workers) = take_placed(alloc, seats, placing, threads)?;
    Ok(OpenedQueue {
        domain,
        root,
        workers,
    })
}
