//! Turns of threads that push and pop on one queue, whose times are taken.
//!
//! `open_queue` opens a domain with a linked queue for some threads, and takes their seats as a `Placing` says. `begin`
//! lays the queue, and pushes a reference to one item for each thread. Each thread then attaches its seat, takes one of
//! these references, and makes its turns with the item: `make_turns`.
//!
//! The rule that is kept is that of the domain, with the queue's law. It is proved that each call is one that its seat
//! may make, which seat each thread has, and that a seat which `make_turns` answers has pushed an item in each turn.
//! Nothing is said of times.
//!
//! ```text
//! let OpenedQueue { domain, mut root, workers } = open_queue(alloc, Placing::Spaced, threads)?;
//! let queue = begin(rt, &domain, &mut root, threads)?;
//! thread::map_vec(rt, workers, &|seat| make_turns(rt, &domain, seat, queue))?;
//! ```
#![tactic(auto)]

mod opening;
mod turns;

pub use opening::{OpenedQueue, open_queue};
pub use turns::{TURNS, begin, make_turns};
