//! Weak places by handles: a seat of a running domain loads a weak reference from a weak cell or a weak field, and
//! puts one there.
//!
//! A load protects what the place holds, counts a weak reference to it and takes its announcement back. A store is
//! one exchange with the client's deed: the reference of the handle, or null, stands in the place, and what stood
//! there is retired. It isn't given up at once, since another seat may have read the place and be about to count a
//! reference to it. `try_replace_weak` does so only where the place holds what is expected, and else hands the
//! reference back. Where so many entries are retired then that a scan is due, the call collects before it returns. A
//! handle gives no right by itself: a call asks that the seat's list has its slot, and that the seat is in no call,
//! and it leaves the seat so. No call takes memory, and each returns but `load_weak`, which may wait.
//!
//! A weak snapshot reads an object that may end meanwhile. A load's protection is followed by an announcement for
//! disposal and a read of the count: where that finds references, nobody destroys the object until `end_weak`, although
//! it may end. Where the seat's words 1 to 3 are all in use the snapshot is counted.
//!
//! A weak reference keeps its slot from being given again, and not its object alive: `upgrade` tells whether it lives.
//! It isn't promised that the place still holds the slot when a load returns, nor that a place which changes all the
//! time is ever loaded, nor when what stood in a place is given up.
//!
//! ```text
//! store_weak(&domain, &mut seat, WeakPlace::Cell(0), Some(weak), deed);                       // one exchange
//! let Some(found) = try_load_weak(&domain, &mut seat, WeakPlace::Cell(0), Still)? else { .. };  // or Moved, Spent
//! load_weak(&rt, &domain, &mut seat, WeakPlace::Field(slot), Still)?;                  // tries until it holds still
//! try_replace_weak(&domain, &mut seat, WeakPlace::Cell(0), expected, Some(other), deed)?;    // or LostWeak
//! if let WeakSnap::Held(seen) = try_weak_snapshot(&domain, &mut seat, WeakPlace::Cell(0), Still)? {
//!     slot_store::read(&domain, &mut seat, seen.slot(), 0);                  // it may have ended, and isn't destroyed
//!     end_weak(&domain, &mut seat, seen);
//! }
//! ```
#![tactic(auto)]

mod loading;
mod places;
mod snapshots;
mod storing;
mod weak_snapshot;

pub use loading::{load_weak, try_load_weak};
pub use protected_loads::{
    Deed, Domain, LoadError, OutOfMemory, Protocol, Seat, SlotId, Spent, UpgradeError, Weak,
    WeakPlace, acquire_at_last, copy_strong, drop_strong, drop_weak, upgrade, weaken,
};
pub use retiring_stores::{EventPlace, Outcome, Strong, collect};
pub use snapshots::{WeakSnap, try_weak_snapshot};
pub use storing::{LostWeak, store_weak, try_replace_weak};
pub use weak_snapshot::{WeakSnapshot, end_weak, weak_counted};
