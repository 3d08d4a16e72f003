//! What the calls on records in strong cells have in common, over a domain whose readers open regions: over which cells
//! a domain keeps records, how many heads a seat may put there, and what a call leaves of its seat.
//!
//! The rule that the calls keep is the law of `cell_law`, by the deeds of `cell_protocol`. `Keeps` of `specs` is the
//! one record in which each call says what it leaves, and such records compose.
//!
//! Nothing here runs.
//!
//! ```text
//! keeps: Keeps makes adds owned old new
//! ```
#![tactic(auto)]

mod laws;

pub use cell_protocol::{
    BindCell, CellLaw, ClearCell, FindText, LinkPart, LookCell, MakePiece, ReadPart,
};
pub use laws::calls_keep_in_turn;

// What its callers take with it.
pub use cell_protocol::RecordKind;
