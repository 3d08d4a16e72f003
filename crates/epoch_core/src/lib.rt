//! A second core, whose readers open a region in place of announcing each slot: its atomic steps, as data and as
//! definitions, and what holds after every list of them.
//!
//! A reader opens a region, looks at places in it, and closes it. A reference that leaves a place is dated with the
//! epoch, and given up two epochs later. Each event is one atomic action of one seat on one word. The definitions in
//! `specs/` say which word, when a seat may act, what becomes of the word and of what the seat knows. It is proved that
//! each event keeps the invariant: the count word of a live slot is the number of its references; what an open region
//! has seen is live, since it stands in a place or has a pending entry that can't be due before the region closes; a
//! slot is destroyed only by the one seat that took its last reference.
//!
//! Nothing is promised about which event comes, or when. Deferral has no bound: a region that stays open keeps every
//! later entry from being given up. The events are made by `epoch_domain`.
//!
//! ```text
//! let event = EpochEvent { seat: 0, act: EpochAct::Look(EventPlace::Cell(3)) };
//! epoch_core::epoch_step_keeps();     // cites, in a proof, that one event keeps the invariant
//! ```
#![tactic(auto)]

mod act;
mod laws;
mod outcome;
mod shape;
mod view;

pub use act::{Dated, EpochAct, EpochEvent};
pub use core_law::{EventPlace, Quota, SlotId};
pub use laws::{
    epoch_alone_flushes, epoch_event_shows, epoch_history_is_sound, epoch_shows_sound,
    epoch_sound_is_good, epoch_step_keeps, epochs_destroy_once, epochs_start,
};
pub use outcome::EpochOutcome;
pub use shape::EpochShape;
pub use view::{EpochMove, EpochPhase, EpochView, LeftEpochSeat, Sweep};
