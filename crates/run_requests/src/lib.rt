//! What a run of the program may be asked for, as plain values.
//!
//! The rule: a value says what is asked and nothing else. Whether its numbers are in range is a condition of the call
//! that takes it; nothing here checks them.
//!
//! ```text
//! let protect = Protect::Announce;
//! let args = WordsArgs { names, lanes: 2, rounds: 1, slots: None, double: false, protect };
//! words_work(rt, alloc, &args, &mut files, &Open, &weigh)?    // `command_line` makes them of words
//! ```
#![tactic(auto)]

mod asked;

pub use crate::asked::{Bulk, Draws, Protect, Request, WordsArgs};
