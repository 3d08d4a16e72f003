//! What a domain under epochs and its seats store: the first words, the pending entries of a seat in the order of their
//! dates, the slots that it has ended, and the test of a shape.
//!
//! Everything is a function of what it is given. `Pending` keeps the references that a seat has yet to give up, and
//! hands out those that are due while the others stay; seat 0 takes over the lists of seats that leave without taking
//! memory. `Ended` keeps the slots whose objects the seat has ended and not yet destroyed.
//!
//! Nothing here makes an atomic step.
//!
//! ```text
//! let mut pending = Pending::with_room(alloc, 4)?;
//! pending.reserve(1)?;
//! pending.push(Dated { slot, date: 7 });
//! pending.take_due(8);                      // None: it is due once the seat knows epoch 9
//! ```
#![tactic(auto)]

mod beginning;
mod dated_queue;
mod ended;
mod fields;
mod pending;

pub use beginning::first_words;
pub use core_functions::{OutOfMemory, found_in, held_as};
pub use ended::Ended;
pub use epoch_core::{
    Dated, EpochAct, EpochOutcome, EpochPhase, EpochShape, EventPlace, Quota, SlotId, Sweep,
};
pub use fields::first_bad;
pub use pending::Pending;
pub use plain_state::{Heap, SlotImage};
