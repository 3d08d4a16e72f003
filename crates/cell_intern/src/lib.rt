//! Interning texts as records in strong cells, over a domain whose readers open regions: equal texts have one record,
//! and a seat gains a reference to it.
//!
//! A text is looked for under one open region. Where its walk comes to a null cell its record is made and its head put
//! there; where another seat was faster, the walk goes on. The rule that is kept is the law of `cell_law`: no two cells
//! have records of one text, and what stands in a cell stays until seat 0, once it is alone, clears the cells.
//!
//! It isn't promised that a call returns: each turn of its loop that doesn't end it lost a cell to another seat.
//!
//! ```text
//! let record = intern(rt, alloc, &domain, &mut seat, b"ab")?;    // or MakesSpent, AddsSpent, Full
//! e_drop(&domain, &mut seat, record);                            // its cell keeps it
//! ```
#![tactic(auto)]

mod interning;
mod placing;
mod refusal;

pub use interning::intern;
pub use refusal::InternError;

// What its callers take with it.
pub use cell_calls::{CellLaw, ClearCell, RecordKind};
pub use cell_finding::{Walk, seek, sought_text};
pub use epoch_refs::{
    EpochDomain, EpochSeat, Place, SlotId, Strong, e_drop, e_image, e_leave, e_look, e_store,
    enter, exit,
};
