//! A running domain under epochs: threads share it, and each call of a seat is one event.
//!
//! A domain is a table of words, and a seat is what one thread at a time steps with. Each call makes one atomic step,
//! but for `open_region`, which makes two; and each step is one event of the table of events that `epoch_core` defines,
//! under whatever protocol the client gives: its clause says which word the step found, what the seat has afterwards,
//! and what the client's deed was told. So what `epoch_core` proves of all lists of events holds of every running
//! domain, between any two steps of any threads, and so does the client's law: what an open region has seen is not
//! destroyed before it is closed, and each object is destroyed at most once.
//!
//! Nothing is promised about which step comes next, nor when. A region that stays open keeps every later entry from
//! being given up.
//!
//! ```text
//! domain.open_region(&mut seat);                              // two steps: a region is open
//! domain.look(&mut seat, EventPlace::Cell(0), deed);          // what is found isn't destroyed before the exit
//! domain.exit(&mut seat);
//! ```
#![tactic(auto)]

mod aim;
mod atomics;
mod closing;
mod counters;
mod domain;
mod exchanging;
mod filling;
mod hints;
mod image;
mod leaving;
mod opening;
mod places;
mod reading;
mod regions;
mod seat;
mod site;
mod standing;

pub use domain::EpochDomain;
pub use epoch_parts::{
    Dated, EpochOutcome, EpochPhase, EpochShape, EventPlace, Heap, OutOfMemory, Quota, SlotId,
    first_bad, held_as,
};
pub use epoch_rule::{AnyStep, Deed, NoLaw, Protocol, Still};
pub use opening::open_domain;
pub use seat::{EpochSeat, EpochSeatOf};
