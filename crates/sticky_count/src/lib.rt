//! A counter that threads share through one atomic word, and that stays at zero once it has ended
//! there.
//!
//! Each count has a holder. Whoever holds one may give it up, and whoever ends the counter that way
//! is told so: at most one caller in all, whatever the interleaving. From then on nobody can count:
//! an increment says so and changes nothing that is seen. That makes it the count of references to
//! an object that is destroyed once.
//!
//! It keeps this rule: the counts that the seats hold are, between any two atomic steps, the value
//! of the word. It promises neither progress nor an order between the calls of two threads.
//!
//! ```text
//! let (sticky, mut seats) = Sticky::open_sticky(alloc, 2, 100)?;   // the count is 1, and seat 0 holds it
//! let mut seat = seats.remove(0);
//! if sticky.increment(&mut seat) == Ok(true) {                     // 2
//!     sticky.decrement(&mut seat);                                 // false: 1 is left
//! }
//! sticky.decrement(&mut seat);                                     // true: this caller ended the counter
//! ```
#![tactic(auto)]

mod laws;
mod outcome;
mod rule;
mod seat;
mod sticky;
mod view;

pub use counter_word::{Fin, HELP, Sub, ZERO, add, finish, sub, take_help, value};
pub use laws::{
    sound_after_any_events, sound_while_running, steps_of_calls, trails_are_events, zero_stays,
};
pub use outcome::Spent;
pub use seat::{Sticky, StickySeat};
pub use view::{Act, Event, Knows, Move, Phase, View};
