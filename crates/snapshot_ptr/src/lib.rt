//! Snapshots of what strong places hold: a seat of a running domain reads an object for as long as it likes without
//! touching its count.
//!
//! A snapshot is an announcement that stays. The seat announces the slot that it found in a place, by one of its
//! announcement words 1 to 3, and checks that the place holds it still; from then on no scan gives up the references
//! that were retired while the announcement stands, so the object lives until `end` takes it back. That costs two
//! reads and two writes of the seat's own word, and the counter word that all threads share isn't touched. A seat has
//! three such words: while all are in use a snapshot is counted, and holds a strong reference in place of an
//! announcement. `keep` makes a reference of a snapshot.
//!
//! A snapshot gives no right by itself: a call asks that the seat is under it, and that the seat is in no call. A seat
//! under snapshots may make every other call, and stays under them. No call takes memory, and each returns but
//! `snapshot`, which may wait.
//!
//! It isn't promised that the place still holds the object when a snapshot has been taken, nor that one of a place
//! which changes all the time is ever taken. A snapshot that is never ended keeps its object alive.
//!
//! ```text
//! let Some(seen) = try_snapshot(&domain, &mut seat, Place::Cell(0), Still)? else { .. };    // null; or Moved, Spent
//! slot_store::read(&domain, &mut seat, seen.slot(), 0);                                     // it lives
//! let strong = keep(&domain, &mut seat, &seen)?;                                            // one add, or Spent
//! end(&domain, &mut seat, seen);
//! ```
#![tactic(auto)]

mod handle;
mod keeping;
mod taking;

pub use atomic_shared::{Strong, collect, compare_exchange, exchange, load, store};
pub use handle::{Snapshot, counted};
pub use keeping::{end, keep};
pub use protected_loads::{
    AnyStep, Deed, Kind, LoadError, NoLaw, OpenError, OutOfMemory, PayloadKind, Place, Protocol,
    Quota, RecordKind, Shape, SlotId, Spent, Weak, copy_strong, drop_strong, drop_weak,
    open_domain, record_of, upgrade, weaken,
};
pub use taking::{snapshot, try_snapshot};
