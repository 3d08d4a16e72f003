//! The words of some files, counted by lanes over records in strong cells of a domain whose readers open regions, as
//! one call.
//!
//! `count_cells` opens the domain, runs the lanes, and once all of them ran to their ends seat 0 takes over what they
//! have: it finds the record of each word, clears the cells, audits the whole state, counts the holders of each record
//! in its image, gives up what it kept, audits again, and writes the report.
//!
//! The rule that is kept is the law of `cell_law`, between any two events of all seats. The text is the report of the
//! files, whatever the number of lanes and the interleaving of their events. A refusal comes only with its cause, which
//! the seat tells that is handed back.
//!
//! It isn't promised that a call returns, nor when there is memory enough.
//!
//! ```text
//! let weigh: Deleter<RecordKind, _> = Deleter::keep(|payload: &[u64; 16]| RecordKind::weigh(payload));
//! match count_cells(&rt, alloc, &work, 2, 4096, &Open, &weigh) {      // two lanes, 4,096 slots
//!     Ok(counted) => counted.text,                                    // `3 2 a`, `1 1 b`, and three lines
//!     Err(EpochCountError::Full(seat)) => ..,                         // its trail shows each slot as taken
//!     Err(..) => ..,
//! }
//! ```
#![tactic(auto)]

mod counted;
mod finishing;
mod learning;
mod parting;
mod running;

pub use cell_domain::{
    CellLaw, EpochDomain, EpochSeat, FileText, Gate, OutOfMemory, Work, is_within_limits,
};
pub use cell_records::{Deleter, RecordKind};
pub use counted::{EpochCountError, EpochCounted};
pub use law_lesson::PayloadKind;
pub use running::count_cells;
