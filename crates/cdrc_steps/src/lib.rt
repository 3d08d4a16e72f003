//! Lists of atomic steps, checked against the core: what the command `steps` writes of a text.
//!
//! The rule: the first line opens a core of a shape, and each later line is an event of one seat. An event is made
//! exactly where the core's table has it, and its outcome is the table's; the first line that isn't spelled so, names
//! what isn't there, or isn't enabled is refused, and its number and reason are the last line. At the end each slot
//! that isn't free is told with its two words, and then how many events there were. So a text has one output
//! (`steps_write_one`).
//!
//! Nothing is promised of interleavings that a text doesn't list.
//!
//! ```text
//! let written = steps(alloc, b"shape 1 1 0 0 4\n0 claim 0\n0 arm\n0 start\n")?;
//! // claim claimed
//! // arm ok
//! // start ok
//! // slot 0 strong 1 weak 1
//! // events 3
//! ```
#![tactic(auto)]

mod closing;
mod laws;
mod machine;
mod opening;
mod ranges;
mod running;
mod text;

pub use cdrc_core::{
    Act, Core, Event, EventPlace, Kind, Note, Outcome, OwnView, Phase, Quota, ReplayError, Shape,
    ShapeField, SlotId, StartError, StepError,
};
pub use laws::steps_write_one;
pub use line_machine::{Lines, Written, words};
pub use step_lines::{decode, encode, event_line, push_event};
pub use text::steps;
