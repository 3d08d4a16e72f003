//! The core of a domain of counted objects, run by one event at a time.
//!
//! `Core` holds all words of a domain and what each seat knows, and makes the events of the table
//! that `core_events` defines: the whole table, a seat's leave and an object's destruction among
//! them. It keeps this rule: the state is the one that the definitions give, after every event, and
//! an event that isn't enabled is refused and changes nothing. So the invariant that `core_law`
//! proves of all lists of events holds of every core.
//!
//! It is for one thread: what many threads do at once is here one list of events, in the order of
//! their atomic steps. Nothing is promised about which events come, or that any is enabled.
//!
//! ```text
//! let mut core = Core::start(alloc, shape, &quotas)?;
//! core.step(&Event { seat: 0, act: Act::Claim(SlotId(3)) })?;    // Outcome::Claimed
//! core.step(&Event { seat: 0, act: Act::Arm })?;                 // slot 3 has its own weak reference
//! core.step(&Event { seat: 0, act: Act::Start })?;               // slot 3 is live
//! core.strong_word(SlotId(3));                                   // 1
//! let (core, outcomes) = Core::replay(alloc, shape, &quotas, &events)?;
//! ```
#![tactic(auto)]

mod errors;
mod events;
mod machine;
mod replays;
mod seats;
mod table;
mod words;

pub use core_law::{Event, ShapeField};
pub use core_views::{
    Act, EventPlace, Kind, Note, Outcome, OwnView, Phase, Quota, Shape, SlotId, is_content,
    one_first_bad,
};
pub use errors::{ReplayError, StartError, StepError};
pub use machine::Core;
