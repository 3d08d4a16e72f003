//! A text of lines, run by whoever takes them one by one.
//!
//! The rule: lines are taken in order, blank ones are skipped but counted, and what each writes is appended. The first
//! line that is refused ends the run with `line N refused: REASON` as the last line; without one the end of the text
//! has the last word. A machine that leaves nothing open writes one output of a text (`runs_are_one`). Nothing is
//! promised of what a line means: that is the machine's.
//!
//! ```text
//! let written = run_lines(alloc, &mut machine, &aid, text)?;
//! if written.refused {
//!     // the last line of written.text tells which line, and why
//! }
//! ```
#![tactic(auto)]

mod laws;
mod machine;
mod run;

pub use laws::runs_are_one;
pub use line_words::{Lines, OutOfMemory, Reason, push_number, push_refused, words};
pub use machine::LineMachine;
pub use run::{Written, run_lines};
