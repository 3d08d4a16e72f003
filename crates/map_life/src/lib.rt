//! A life of a domain with an ordered map of versions, for its user: from opening it to what is left in the end.
//!
//! `open_map` opens a domain whose cell 0 is the root of an empty map, and answers seat 0 and the others, each of
//! which plays (`Plays`): it may begin each call on the map. Every call of `VersionMap` leaves a seat that plays
//! playing, and so does `tidy`, which destroys nodes of old versions. So all that a thread's loop has to say is that
//! its seat plays. A seat that plays owns nothing, and may leave: `leave_map`. Once all have, seat 0 destroys what is
//! left to destroy, and counts: `settle_map`.
//!
//! The rule that is kept is the law of `map_law`. In the end what lives are the nodes of the last version, one for each
//! key, and no node is kept by a cycle.
//!
//! It isn't promised when nodes of old versions are destroyed, nor that a seat which doesn't tidy leaves slots free.
//!
//! ```text
//! let Opened { domain, mut root, others } = open_map(alloc, 3, 4096, WIDE, WIDE)?;
//! let map = VersionMap::over(0);
//! let seats = thread::map_vec(rt, others, &|mut seat| {
//!     let _before = map.update(rt, &domain, &mut seat, 7, Change::Bump(1));        // plays, and plays again
//!     tidy(&domain, &mut seat, 64);
//!     seat
//! })?;
//! leave_map(&domain, &mut root, seats);
//! let settled = settle_map(alloc, &domain, &mut root)?;                     // settled.audit.live: how many keys
//! ```
#![tactic(auto)]

mod ending;
mod leaving;
mod opening;
mod tidying;

pub use ending::settle_map;
pub use leaving::leave_map;
pub use opening::{WIDE, open_map};
pub use tidying::tidy;

// What its callers take with it.
pub use seat_life::{
    Done, OpenError, Opened, OutOfMemory, Quota, Settled, close, in_threads, learn_law, leave_all,
    open_seats, read_all, read_value, repeat, settle_and_audit, store_value,
};
pub use version_map::{Change, Domain, MakeError, MapLaw, Moved, Seat, UpdateError, VersionMap};
