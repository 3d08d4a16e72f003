//! What a script has between two commands, on a running domain.
//!
//! The rule: the domain has one seat, which has just what the handles need to which names are bound.
//!
//! `DomainDesk::fault` tells why a command is refused. `DomainDesk::run` does one with which nothing is wrong, as its
//! row says in `script_desk/specs/Effects`, by the calls of the domain's seat, and then the seat settles. What it does
//! is told of the plain state that the seat knows, in the words of the desk for one thread, and by what the seat's
//! trail shows. `DomainDesk::close` gives up all handles, and hands out the domain and its seat.
//!
//! Nothing is promised of a desk after `OutOfMemory`.
//!
//! ```text
//! let mut desk = DomainDesk::open(alloc, 4, 1, 0)?;
//! match desk.fault(&command) {
//!     None => desk.run(&command, &weigh)?,      // Said::Made, or Said::Full
//!     Some(reason) => ..,
//! }
//! let (domain, seat) = desk.close(&weigh);     // no handle is left
//! ```
#![tactic(auto)]

mod auditing;
mod desk;
mod faults;
mod giving;
mod making;
mod opening;
mod places;
mod references;
mod running;
mod snapshots;
mod telling;

pub use desk::DomainDesk;
pub use lone_heap::{PairKind, Seat};
