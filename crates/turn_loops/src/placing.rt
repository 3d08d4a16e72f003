//! Which of a domain's seats the threads have.
ghost use Rattle.std.specs.Prelude.{◌≡◌, ◌*◌, ◌<◌, ◌≤◌, IfOk, length, slice_index_or};
ghost use Rattle.turn_loops.specs.Placings.{ArePlaced, number_of};

use snapshot_ptr::OutOfMemory;
use std::alloc::Global;

/// Which seat each thread has.
#[derive(Clone, Copy, PartialEq, Eq, Debug, Drop)]
pub enum Placing {
    /// Thread i has seat 2i, so that no two threads write one cache line.
    Spaced,
    /// Thread i has seat i, so that threads write the cache lines of their neighbours.
    Neighbours,
}

impl Placing {
    /// The number of the seat that a thread has, from thread 1 on.
    pub fn seat_of(self, thread: u32) -> u32
        requires { thread ≤ 15 }
        ensures { result ≡ number_of self thread }
    {
        match self {
            Placing::Spaced => 2 * thread,
            Placing::Neighbours => thread,
        }
    }
}

/// Of the seats from 0 on, seat 0 and a seat for each of so many threads, the last thread's first. The others are
/// dropped.
pub fn take_placed<T: Drop>(
    alloc: Global,
    mut seats: Vec<T>,
    placing: Placing,
    threads: u32,
) -> Result<(T, Vec<T>), OutOfMemory>
    requires few { threads ≤ 15 }
    requires enough { 2 * threads < length seats.items }
    ensures root { IfOk result (λ taken. taken.0 ≡ slice_index_or seats.items 0 taken.0) }
    ensures placed { IfOk result (λ taken. ArePlaced placing threads seats.items taken.1.items) }
{
    let mut workers = Vec::new(alloc);
    for taken in 0..threads {
        let number = placing.seat_of(threads - taken) as usize;
        workers.push(seats.remove(number))?;
    }
    let root = seats.remove(0);
    Ok((root, workers))
}
