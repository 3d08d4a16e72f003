//! A cache that keeps nothing alive: seats remember a value weakly in one weak cell, and recall it as long as its
//! object lives. What its user wants to know: a value that was recalled was remembered.
//!
//! A value is the payload of an object, all sixteen words. The rule that is kept: what the weak cell holds is an object
//! that was made, alive or not, and its value was remembered by some seat; and so was each value that a seat recalled.
//! A weak reference keeps the slot of an object that has ended from being given again, so no other value stands there.
//!
//! No step is promised to come, nor that a value lives for any time. Which of two values was remembered later isn't
//! told.
//!
//! ```text
//! remember(&domain, &mut seat, 0, &object)?;            // weak cell 0; or Spent
//! let Some(object) = recall(&domain, &mut seat, 0)? else { .. };   // null; or Ended, Moved, Spent
//! ```
#![tactic(auto)]

mod deeds;
mod law;
mod promises;
mod recalling;
mod remembering;
mod view;

pub use deeds::{RecallValue, RememberValue};
pub use law::CacheLaw;
pub use promises::each_value_was_remembered;
pub use recalling::{RecallError, recall};
pub use remembering::remember;
pub use view::View;
