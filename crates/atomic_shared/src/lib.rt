//! Strong places by handles: a seat of a running domain loads a strong reference from a cell or a field, and puts one
//! there.
//!
//! A load protects what the place holds, counts a reference to it and takes its announcement back. A store is one
//! exchange with the client's deed: the reference of the handle, or null, stands in the place, and what stood there
//! is retired. It isn't given up at once, since another seat may have read the place and be about to count a
//! reference to it. `try_replace` does so only where the place holds what is expected, and else hands the reference
//! back. Where so many entries are retired then that a scan is due, the call collects before it returns. A handle
//! gives no right by itself: a call asks that the seat's list has its slot, and that the seat is in no call, and it
//! leaves the seat so. No call takes memory, and each returns but `load`, which may wait.
//!
//! It isn't promised that the place still holds the object when a load returns, nor that a place which changes all the
//! time is ever loaded, nor when what stood in a place is given up.
//!
//! ```text
//! store(&domain, &mut seat, Place::Cell(0), Some(first), deed);            // one exchange
//! let Some(strong) = try_load(&domain, &mut seat, Place::Cell(0), Still)? else { .. };   // null; or Moved, Spent
//! load(&rt, &domain, &mut seat, Place::Field(strong.slot(), 1), Still)?;                 // tries until it holds still
//! try_replace(&domain, &mut seat, Place::Cell(0), expected, Some(second), deed)?;      // or Lost, with `second` back
//! ```
#![tactic(auto)]

mod loading;
mod places;
mod storing;

pub use loading::{load, try_load};
pub use places::event_place;
pub use protected_loads::{
    Deed, LoadError, PayloadKind, Place, Protocol, SlotId, Spent, drop_strong, record_of,
};
pub use retiring_stores::{Strong, collect, compare_exchange, exchange, leave};
pub use storing::{Lost, store, try_replace};
