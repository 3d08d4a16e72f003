//! The words of named files, counted on lanes that open regions, as one call.
//!
//! `words_epoch` reads the files in order, cuts them into pieces, and counts these over records in strong cells of a
//! domain that is sized by them. The rule that it keeps: the bytes that it answers are the text of the files' contents,
//! whatever the lanes do, as `words_work` has them by announcements; and each refusal but that of no memory comes
//! only where its cause is there, which the seat tells that is handed back. `count_contents` does the same with
//! contents that were had in another way.
//!
//! It isn't promised that a call returns, since lanes may retry and a gate may wait, nor when memory is enough.
//!
//! ```text
//! let done = words_epoch(rt, alloc, &args, &mut files, &gate)?;        // args as `command_line` reads them
//! done.bytes                                                           // `3 2 a`, `1 1 b`, and three lines
//! ```
#![tactic(auto)]

mod beginning;
mod outcome;
mod working;

pub use cell_reports::{CellLaw, EpochSeat, Gate, RecordKind};
pub use file_work::{Files, Plan, Refused, WordsArgs};
pub use outcome::{EpochDone, EpochRefused};
pub use working::{count_contents, words_epoch};
