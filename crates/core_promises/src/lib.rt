//! What the core promises of every list of events, in the words of who builds on it.
//!
//! `core_law` proves the invariant of all histories, and what a core shows. Here stands what follows:
//! counter words never wrap, an answer tells what is so, what is deferred is bounded, each object is destroyed at most
//! once. Each promise is the clause of a function without a body. Nothing is promised about which event comes, or when.
//!
//! ```text
//! core_promises::destroyed_once();     // cites, in a proof, that an object is destroyed at most once
//! ```
#![tactic(auto)]

mod laws;

pub use core_law::{
    Act, EventPlace, Kind, Outcome, Phase, Quota, Shape, ShapeField, SlotId, announced_as,
};
pub use laws::{
    always_lawful, always_shows, answers_tell_truly, deferred_fit, destroyed_once, grants_fit,
    history_deferred_fit, history_lawful, history_runs, history_trails, last_move_happened,
    made_by_starts, never_wraps, trails_tell,
};
