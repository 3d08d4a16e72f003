//! The numbers of a text, and the index of how often each occurs over some files.
//!
//! The rule: a field of the text, a maximal run of bytes without Unicode White_Space, is a number where it is an
//! optional `+` and one or more decimal digits of a value below 2^64. All other fields are skipped, and counted.
//! `read_numbers` finds the numbers, and `index_report` writes a line for each distinct number and three lines of
//! totals, byte for byte as `index_of` says.
//!
//! Only an allocation failure is left open: no contract says when it comes.
//!
//! ```text
//! let found = read_numbers(alloc, b"7 3 7 x", 65_536)?;    // 7, 3, 7, and 1 skipped
//! let rows = [CountOf { count: 1, number: 3 }, CountOf { count: 2, number: 7 }];
//! let text = index_report(alloc, &rows, &totals)?;         // 1 3, 2 7, and the totals
//! ```
#![tactic(auto)]

mod error;
pub mod laws;
mod numbers;
mod report;
mod row;

pub use crate::error::NumbersError;
pub use crate::numbers::{Numbers, read_numbers};
pub use crate::report::index_report;
pub use crate::row::{CountOf, IndexTotals};
pub use cdrc_text::{AuditLine, OutOfMemory};
