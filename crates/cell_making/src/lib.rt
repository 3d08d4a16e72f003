//! Records of texts of 1 to 4,096 bytes, which a seat of a domain whose readers open regions makes and puts into cells.
//!
//! A record is a head and parts, 120 bytes a slot: word 0 of a head is the text's length, that of a part 65,536 and the
//! number of its bytes. The last part is made first, and each slot leads by its field 1 to the one that was made before
//! it, at once. So a seat owns two of the slots at most, and the head in the end, which it has noted with the whole
//! text. Then the head goes into the first null cell of its text's walk, or the seat sees which head another seat has
//! put there.
//!
//! Each event goes with a deed of `cell_protocol`, so the law of `cell_law` holds between any two events of all seats.
//! Where a make is refused, what was made so far is given up; a flush destroys it later. Nothing here opens a region:
//! the walk of a text, without which a head can't be bound, is the caller's, and so is that the seat may put one head
//! more into a cell.
//!
//! ```text
//! let head = make_record(alloc, &domain, &mut seat, text)?;        // or MakesSpent, AddsSpent, Full, OutOfMemory
//! bind(alloc, &domain, &mut seat, cell, head)?;                    // or Lost(head), OutOfMemory(head)
//! ```
#![tactic(auto)]

mod binding;
mod laws;
mod making;
mod refusals;

pub use binding::bind;
pub use cell_calls::{CellLaw, LinkPart, MakePiece};
pub use epoch_refs::{EpochDomain, EpochSeat, SlotId, Strong};
pub use laws::{makes_change_notes_alone, records_are_bound_in_turn};
pub use making::make_record;
pub use refusals::{BindError, RecordError};
