//! The loops of turns whose times are taken: in each turn a thread makes one or two calls on one shared cell or object.
//!
//! `open` opens a domain for some threads, and takes their seats as a `Placing` says: every other seat, so that no two
//! threads write one cache line, or seats side by side. `begin` puts an object into the cell, and `make_turns` makes
//! the turns of one thread.
//!
//! The rule that is kept is that of the domain. It is proved that each call is one that its seat may make, which seat
//! each thread has, and that a seat which `make_turns` answers has made all turns: it has used an add or a make for
//! each, or made four steps. Nothing is said of times, nor of what the cell holds.
//!
//! ```text
//! let Opened { domain, mut root, workers } = open(alloc, Placing::Spaced, threads)?;
//! begin(&domain, &mut root);
//! thread::map_vec(rt, workers, &|seat| make_turns(rt, &domain, seat, Operation::Load))?;
//! ```
#![tactic(auto)]

mod domain;
mod operation;
mod placing;
mod strong_turns;
mod turns;
mod weak_turns;

pub use domain::{AnyPayload, Objects, Opened, open};
pub use operation::{OPERATIONS, Operation};
pub use placing::{Placing, take_placed};
pub use slot_store::{Deleter, Domain, Seat, make, reap};
pub use snapshot_ptr::{
    OpenError, OutOfMemory, Quota, Shape, collect, copy_strong, drop_strong, open_domain,
};
pub use turns::{begin, make_turns};
