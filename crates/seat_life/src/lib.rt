//! A life of a domain, for its user: from opening it to closing it, with a seat for each thread.
//!
//! `open_seats` opens a domain, and answers seat 0 and the others. `in_threads` gives each of these a thread, and
//! `repeat` makes turns there; `store_value` and `read_value` put whole payloads into places and read them, and a user
//! may as well make each call of the library by itself. Then `leave_all` brings the seats home to seat 0, which is
//! alone, and may `settle_and_audit`, and `close`.
//!
//! The rule that it keeps: each of these calls begins with a seat that is free (`IsFree`) and leaves it free: in no
//! call, announcing nothing, with room to retire. So a thread's body needs no proof of its own, whatever the law of its
//! domain is. Nothing is promised of what threads do by other calls, beyond what those promise.
//!
//! ```text
//! let Opened { domain, mut root, others } = open_seats(alloc, SHAPE, WIDE, WIDE, Objects::new())?;
//! let done = in_threads(rt, alloc, &domain, others, &|seat, _number| {
//!     repeat(&domain, seat, 1000, &|seat, turn| work(&domain, seat, turn))             // free, and free again
//! })?;
//! leave_all(&domain, &mut root, done.seats);
//! let settled = settle_and_audit(alloc, &domain, &mut root, &deleter)?;                // what lives, and what weighed
//! close(domain, root);
//! ```
#![tactic(auto)]

mod ending;
mod learning;
mod leaving;
mod opening;
mod reading;
mod storing;
mod threads;
mod turns;

pub use ending::{Settled, close, settle_and_audit};
pub use learning::learn_law;
pub use leaving::leave_all;
pub use opening::{Opened, open_seats};
pub use payload_reading::read_all;
pub use reading::read_value;
pub use storing::store_value;
pub use threads::{Done, in_threads};
pub use turns::repeat;

// What its callers take with it.
pub use domain_audit::{Deleter, OpenError, OutOfMemory, Quota, Shape, reap};
