//! What some tallies counted together: each word once, with the sum of its counts, in byte order.
//!
//! The rule: a word is listed exactly where some tally counted it, and its number is the sum of what they counted. It
//! asks that no word was counted 2^63 times in all. Nothing is promised of the time, and memory may run out.
//!
//! ```text
//! let tallies = vec![in alloc; first, second]?;    // `a` twice and `b` once; `a` once
//! counted_words(rt, alloc, &tallies)?              // `a` 3, `b` 1
//! ```
#![tactic(auto)]

mod adding;
mod listing;

pub use cdrc_text::{AuditLine, OutOfMemory, PiecesError, Row, Tally, Totals, pieces, report};
pub use listing::counted_words;
