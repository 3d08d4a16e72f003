//! The lines of a script, parsed: the numbers of a heap, and the commands on it.
//!
//! `script_line` takes the words of a line and gives the line that they spell, or refuses them exactly where they
//! spell none. Names aren't looked up here, and numbers aren't held against a range: a number above 2^128 - 1 counts
//! as 2^128 - 1, and every smaller one is kept.
//!
//! Only an allocation failure is left open: no contract says when it comes.
//!
//! ```text
//! let words = words(alloc, b"make a 7")?;
//! match script_line(alloc, &words)? {
//!     ScriptLine::Heap(slots, cells, weak_cells) => ..,
//!     ScriptLine::Command(Command::Make(name, word)) => ..,     // a, 7
//!     ..
//! }
//! ```
#![tactic(auto)]

mod arguments;
mod command;
pub mod laws;
mod name;
mod parse;
mod place;
mod refused;
mod verb;

pub use crate::command::{Command, ScriptLine, TextPlace};
pub use crate::name::Name;
pub use crate::parse::script_line;
pub use crate::refused::CommandRefused;
pub use line_words::{Back, OutOfMemory, Reason};
