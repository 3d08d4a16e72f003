//! What holds of the core after every list of events, and what its states show.
//!
//! `core_events` defines the atomic steps of a domain and says what is to hold of its states. Here the invariant
//! stands in the form in which each event keeps it: the laws of one slot are one law, by the slot's stage and by
//! numbers alone (`invariant`). Each event of the table keeps it, and so it holds after every list of events that are
//! enabled in turn (`laws`). Where it holds, the core shows a lawful plain state, and each event shows exactly one
//! plain step (`shown`). Each law is the clause of a function without a body. Nothing is promised about which event
//! comes, or when.
//!
//! ```text
//! core_law::step_keeps();     // cites, in a proof, that one event keeps the invariant
//! core_law::event_shows();    // cites that an event shows its plain step
//! ```
#![tactic(auto)]

mod invariant;
mod laws;
mod shown;

pub use core_events::{
    Act, CoreView, Event, EventPlace, HELP, Kind, Outcome, Phase, Quota, Shape, ShapeField, SlotId,
    ZERO, announced_as,
};
pub use invariant::{sound_is_good, start_is_sound, words_are_there};
pub use laws::{
    always_good, history_good, history_is_sound, run_has_history, step_keeps, trails_tell,
};
pub use shown::{counts_are_shown, event_shows, held_stays, sound_is_lawful};
