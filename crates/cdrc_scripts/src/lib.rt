//! Scripts of pointer commands: what the command `script` writes of a text, on a running domain of one seat.
//!
//! The rule: the first line opens a heap, and each later line is a command of one seat on names. A command makes its
//! plain steps, the heap settles, and the command's line is written; the first line that isn't spelled so, leaves a
//! range, or names what isn't bound so is refused, and its number and reason are the last line. A number that is told
//! of references is the sum over all lists that the plain state has.
//!
//! Nothing is promised of which slot a make takes, nor in which order a heap settles. What is written doesn't depend on
//! it (`scripts_have_one_output`). Handles that are left at the end are dropped.
//!
//! ```text
//! let done = script(alloc, b"heap 1 0 0\nmake a 7\nread a 0\n")?;  // done.written, done.seat
//! // make a ok
//! // read a 0 7
//! ```
#![tactic(auto)]

mod laws;
mod lines;
mod machine;
mod run;
mod said;
mod scripting;
mod shown;

pub use domain_desk::{PairKind, Seat};
pub use laws::scripts_have_one_output;
pub use line_machine::{Lines, OutOfMemory, Reason, Written, words};
pub use run::{Scripted, script};
pub use script_law::{
    Command, CommandRefused, Deleter, Desk, Heap, Kind, NoLaw, PayloadKind, Said, ScriptKind,
    ScriptLine, Shown, SlotId, SlotImage, ZERO, audit, check_walk, lawful, script_line,
};
