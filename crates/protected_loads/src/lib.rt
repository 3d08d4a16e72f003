//! Loads from the places that threads share: a seat of a running domain looks at a place, announces the slot that it
//! found there, and checks that the place holds it still. Then the seat is under a snapshot of it, and may count a
//! reference.
//!
//! All calls are the same for strong places and weak ones. `acquire` ends under the snapshot, by whichever of the
//! seat's four announcement words; `try_load` counts a reference of the place's kind and takes the announcement back,
//! and `load` does so again and again until the place holds still. Each clause says which events the call made, in
//! which order and with which answers, and what the seat has afterwards: null where the look found null, a snapshot or
//! a reference where the check was valid, and nothing but a longer trail where the place had changed. The client's deed
//! holds at the event that decides, the look that finds null or the check. `acquire_at_last` is `acquire` again and
//! again. No call takes memory, and each returns but `load` and `acquire_at_last`, which may wait.
//!
//! It isn't promised that the place still holds the slot when a call returns, nor that a place which changes all the
//! time is ever loaded.
//!
//! ```text
//! acquire(&domain, &mut seat, 1, EventPlace::Cell(0), Still, Still)?;   // by word 1; None where null; or Moved
//! try_load(&domain, &mut seat, EventPlace::Cell(0), Still)?;            // None where null; or Moved, Spent
//! ```
#![tactic(auto)]

mod acquiring;
mod loading;
mod reacquiring;
mod retrying;
mod where_null;

pub use acquiring::{Moved, acquire};
pub use control_word::{
    AnyStep, Deed, Domain, EventPlace, Heap, Kind, LoadError, NoLaw, OpenError, OutOfMemory,
    Outcome, PayloadKind, Payment, Place, Protocol, Quota, RecordKind, Seat, Shape, ShapeField,
    SlotId, SlotImage, Spent, Still, Strong, UpgradeError, Weak, WeakPlace, Work, copy_strong,
    copy_weak, drop_strong, drop_weak, empty_image, held_as, open_domain, open_granted, record_of,
    strong_count, upgrade, weak_count, weaken,
};
pub use loading::{in_words, try_load};
pub use reacquiring::acquire_at_last;
pub use retrying::load;
pub use where_null::WhereNull;
