//! Counted references under epochs: readers open a region in place of announcing what they read.
//!
//! A reader opens a region, looks at places in it, reads what it finds and gains references to it, and closes the
//! region: two stores for as many looks as it likes. What it has looked at isn't destroyed before the region is closed.
//! What leaves a place is given up later, by a flush, once no region that may have seen it is open.
//!
//! Each call is a few events of `epoch_core`'s table, which its clause names, with what each answered. So what holds
//! between any two events holds of every program: a live slot counts its references, an object is destroyed at most
//! once, and never while a region that has seen it is open; and so does the client's law.
//!
//! Nothing is promised about time. A region that stays open keeps what is given up later from being destroyed,
//! without a bound: `protected_loads` and `snapshot_ptr` announce each slot, and don't have that cost.
//!
//! ```text
//! enter(&domain, &mut seat);
//! if let Some(slot) = e_look(&domain, &mut seat, Place::Cell(0), deed) {
//!     let word = e_read(&domain, &mut seat, slot, 0);      // it isn't destroyed meanwhile
//! }
//! exit(&domain, &mut seat);
//! ```
#![tactic(auto)]

mod claiming;
mod counting;
mod destroying;
mod exchanges;
mod flushing;
mod life;
mod making;
mod paying;
mod places;
mod regions;
mod sweeping;

pub use control_word::{OpenError, Place, Spent, Strong};
pub use counting::{e_copy, e_drop, e_keep, e_read};
pub use epoch_domain::{
    AnyStep, Deed, EpochDomain, EpochSeat, EpochSeatOf, EpochShape, NoLaw, OutOfMemory, Protocol,
    Quota, SlotId, Still,
};
pub use exchanges::{ECasError, e_cas, e_store};
pub use flushing::{EpochWork, flush};
pub use life::{e_close, e_image, e_leave, open_epoch, waiting};
pub use making::e_make;
pub use out_of_memory::Back;
pub use places::e_look;
pub use regions::{enter, exit};
pub use slot_store::MakeError;
