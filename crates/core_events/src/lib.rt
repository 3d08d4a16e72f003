//! The atomic steps of a domain of counted objects, as data and as definitions.
//!
//! Each event is one atomic action of one seat on one word. The definitions in `specs/` say which
//! word, when a seat may act, what becomes of the word and of what the seat knows, and what holds
//! of every state that events reach. The pure core, the proofs about it and the running domain
//! all cite these. Of itself this crate promises one thing, in `counters_agree`: the events of a
//! strong word are the steps of a sticky counter. What holds of every state is proved above.
//!
//! ```text
//! let event = Event { seat: 0, act: Act::Add(SlotId(3)) };
//! ```
#![tactic(auto)]

mod act;
mod laws;
mod outcome;
mod shape;
mod view;

pub use act::{Act, Event};
pub use announce_slots::{
    Announced, EventPlace, HELP, Kind, MOST_BATCH, MOST_CELLS, MOST_SEATS, MOST_SLOTS,
    MOST_WEAK_CELLS, SlotId, WORDS_OF_SEAT, WORDS_OF_SLOT, ZERO, announced_as, decode, encode,
    has_help, value,
};
pub use laws::counters_agree;
pub use outcome::Outcome;
pub use shape::{Quota, Shape, ShapeField};
pub use view::{CoreView, LeftSeat, Move, Note, Phase};
