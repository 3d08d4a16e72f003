//! The text of a count of words: what a word of the input is, and how the counts are written.
//!
//! `pieces` finds the words of a text. A word is a field of the bytes, a maximal run without Unicode White_Space, and
//! a field longer than 4,096 bytes counts as its consecutive pieces of 4,096 bytes, the last being the rest. `Tally`
//! counts words. `report` writes a line for each word and three lines of totals, byte for byte as `report_of` says.
//!
//! Only an allocation failure is left open: no contract says when it comes.
//!
//! ```text
//! let found = pieces(alloc, text, 1_000_000)?;
//! let mut tally = Tally::new(alloc);
//! for index in 0..found.len() {
//!     let (first, length) = found.get(index);
//!     tally.add(&text[first as usize..(first + length) as usize])?;
//! }
//! ```
#![tactic(auto)]

mod cut;
mod error;
mod generated;
pub mod laws;
mod lines;
mod places;
mod row;
mod tally;

pub use crate::cut::pieces;
pub use crate::error::PiecesError;
pub use crate::generated::generate;
pub use crate::lines::{push_number, report};
pub use crate::places::Pieces;
pub use crate::row::{AuditLine, Row, Totals};
pub use crate::tally::Tally;
pub use out_of_memory::{Back, OutOfMemory};
