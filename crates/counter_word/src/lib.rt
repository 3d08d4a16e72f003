//! The word of a counter of references: a zero flag, a help flag, and the count below them, with the steps that a
//! counter makes on it as pure functions.
//!
//! Where the zero flag stands the count is 0, whatever the lower bits say, so an increment that comes late counts for
//! nothing. That is the sticky counter of Anderson, Blelloch and Wei (PLDI 2022). Clearing the help flag by a
//! `fetch_and` is this project's own choice, so that a late finisher doesn't wipe a count of a later life of the same
//! word.
//!
//! Nothing here is shared or atomic: that each step of a running counter is one of these is the rule of the layers
//! above.
//!
//! ```text
//! let (word, then) = sub(1);               // (0, Sub::Finish): that was the last count
//! let (word, came_to) = finish(word);      // (ZERO, Fin::Ended)
//! let (word, counted) = add(word);         // (ZERO + 1, false): it has ended
//! let count = value(word);                 // 0
//! ```
#![tactic(auto)]

mod outcome;
mod word;

pub use outcome::{Fin, Sub};
pub use word::{HELP, ZERO, add, finish, has_help, sub, take_help, value};
