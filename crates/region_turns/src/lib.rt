//! Turns of threads that open regions, or store into the cells that such threads look at, whose times are taken.
//!
//! `open_regions` opens a domain of 16 cells, with seat 0 and a worker for each thread. `begin` puts an object into
//! each cell. Each thread then makes its turns: `make_turns`.
//!
//! The rule that is kept is that of the domain. It is proved that each call is one that its seat may make, that there
//! is a worker for each thread, and which events a worker that `make_turns` answers has made: those of all its
//! regions, with each look and read, or those of all its stores, up to the flush after every 64th. Nothing is said of
//! times.
//!
//! ```text
//! let OpenedRegions { domain, mut root, workers } = open_regions(alloc, threads)?;
//! begin(alloc, &domain, &mut root);
//! thread::map_vec(rt, workers, &|worker| {
//!     make_turns(alloc, &domain, worker, RegionOperation::LookOnce)
//! })?;
//! ```
#![tactic(auto)]

mod looking;
mod opening;
mod operation;
mod storing;
mod turns;

pub use opening::{OpenedRegions, Worker, open_regions};
pub use operation::{REGION_OPERATIONS, RegionOperation};
pub use turns::{begin, make_turns};
