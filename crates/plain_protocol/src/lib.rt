//! Protocols and deeds: what a client of a domain adds to the rule of its table.
//!
//! A *protocol* is a view for each seat, and a law over the plain state and all views. A *deed* is what a client does
//! with its view at a step. A client proves both once, over the plain state alone: that the law holds at the start, and
//! that each kind of step keeps it. A domain that runs then keeps the law at every step, and each deed's clause tells
//! what its step did.
//!
//! Nothing here runs, and no step is promised to come.
//!
//! ```text
//! let protocol = NoLaw::<RecordKind>::new();     // the client that asks nothing; its deeds are Still and AnyStep
//! ```
#![tactic(auto)]

mod deed;
mod laws;
mod no_law;
mod protocol;

pub use deed::{Deed, Still};
pub use laws::{
    any_step_is_ready, calm_steps_leave, fits_stay, no_law_owns_nothing, still_is_calm,
};
pub use no_law::{AnyStep, NoLaw};
pub use plain_state::{
    Announced, EventPlace, Heap, Kind, MOST_SLOTS, PayloadKind, PlainAct, PlainSlot, RecordKind,
    SlotId, SlotImage, Stage, ZERO, record_of, steps_keep_sound,
};
pub use protocol::Protocol;
