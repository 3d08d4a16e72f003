//! The deed by which a seat learns that the law of its domain's protocol holds.
//!
//! Between any two steps the law holds of the plain state and of the views of all seats. A seat that makes a calm step
//! with the deed `LearnLaw` is told so of the state before that step, with its own view among them: its view stays as
//! it is. A seat that is alone knows that state whole, and may cite what the law's crate says of it.
//!
//! Nothing is told of the state after the step, which is another where the step changes something.
//!
//! ```text
//! let count = strong_count(&domain, &mut seat, slot, LearnLaw);   // the law held when this was counted
//! ```
#![tactic(auto)]

mod deed;

pub use deed::LearnLaw;
pub use plain_protocol::{Heap, PayloadKind};
