//! The lines of a list of steps: the shape of a core and the events of its seats, parsed, and how an event and its
//! outcome are written.
//!
//! The rule: `shape_line` and `event_line` take the words of a line and give the shape or the event that they spell.
//! They refuse them as syntax exactly where they spell none, and as a range where they spell one with a number that
//! the types can't hold: 2^32 or more, or 2^64 or more for the value of a payload word. `push_event` writes the line
//! of an event.
//!
//! Nothing is promised of whether what an event names is there: that depends on the core.
//!
//! ```text
//! let words = words(alloc, b"0 claim 3")?;
//! let event = event_line(&words)?;                        // Event { seat: 0, act: Act::Claim(SlotId(3)) }
//! push_event(&mut text, &event.act, &Outcome::Claimed)?;  // claim claimed
//! ```
#![tactic(auto)]

mod acts;
mod arguments;
mod both;
mod events;
pub mod laws;
mod refused;
mod shapes;
mod texts;

pub use core_events::{decode, encode};
pub use events::event_line;
pub use refused::EventRefused;
pub use shapes::shape_line;
pub use texts::push_event;
