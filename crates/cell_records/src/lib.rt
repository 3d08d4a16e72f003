//! What seat 0 does with the records in strong cells once it is alone with them: it finds the record of each word that
//! was counted, clears the cells, audits the whole state once that has settled, counts what refers to each record, and
//! gives up what it kept.
//!
//! The rule that is kept is the law of `cell_law`, between any two events.
//!
//! ```text
//! let records = find_records(rt, alloc, &domain, &mut root, &tallies)?;       // of each word that some tally counted
//! learn_lives(&domain, &mut root);
//! clear_cells(alloc, &domain, &mut root)?;
//! let held = audit_at_rest(rt, alloc, &domain, &mut root, &weigh, &rank)?;    // only what the seat owns lives
//! let rows = count_rows(alloc, &held.image, records)?;                        // how many references each record has
//! give_all(&domain, &mut root, kept);
//! ```
#![tactic(auto)]

mod audits;
mod clearing;
mod giving;
mod lives;
mod records;
mod rows;

pub use audits::{Audited, audit_at_rest, audit_line, list_ranks};
pub use cell_intern::{
    CellLaw, EpochDomain, EpochSeat, Place, RecordKind, Strong, e_look, enter, exit,
};
pub use cell_rest::Deleter;
pub use clearing::clear_cells;
pub use giving::give_all;
pub use lives::learn_lives;
pub use records::{WordRecord, find_records};
pub use rows::count_rows;

// What its callers take with it.
pub use lane_work::count_pieces;
pub use tally_sums::{Totals, report};
