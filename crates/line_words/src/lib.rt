//! The lines of a text, the words of a line, the numbers that words spell, and how a refused line is told.
//!
//! A line is the bytes up to a line feed or the end of the text, and lines are numbered from 1. Its words are its
//! maximal runs of bytes without Unicode White_Space, of any length; bytes that aren't UTF-8 count as no space. A line
//! without words, and one whose first word begins with `#`, is blank. A number is an optional `+` and one or more
//! decimal digits, of any length: one above 2^128 - 1 reads as 2^128 - 1.
//!
//! Only an allocation failure is left open: no contract says when it comes.
//!
//! ```text
//! for line in Lines::new(text) {
//!     let words = words(alloc, line.bytes)?;
//!     if !is_blank(&words) && number(words[0]).is_none() {
//!         push_refused(&mut output, line.number, Reason::Syntax)?;
//!     }
//! }
//! ```
#![tactic(auto)]

mod fields;
pub mod laws;
mod lines;
mod numbers;
mod reason;
mod refusal;

pub use crate::fields::{is_blank, words};
pub use crate::lines::{Line, Lines};
pub use crate::numbers::number;
pub use crate::reason::Reason;
pub use crate::refusal::push_refused;
pub use cdrc_text::{Back, OutOfMemory, Tally, generate, push_number};
