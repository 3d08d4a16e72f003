//! Records of texts in strong cells as a protocol: what a client that keeps one record for each distinct text adds to
//! the rule of a domain's table, and the deeds by which seats make records, bind them, look at cells, read what stands
//! there, and clear the cells in the end.
//!
//! The rule that it keeps is the law of the crate `cell_law`, over a range of strong cells. A deed is ready by what
//! the seat itself has and by its view; it says what the view is afterwards, and keeps the law. So the law holds
//! between any two steps of all seats.
//!
//! Nothing here runs, and no step is promised to come. A deed doesn't say that the step that it goes with succeeds.
//!
//! ```text
//! let records = CellLaw::over(0, 1_000, grants);     // the cells 0 to 999 of a domain that has no other client
//! ```
#![tactic(auto)]

mod cells;
mod law;
mod making;

pub use cells::{ClearCell, FindText, LookCell, ReadPart};
pub use law::CellLaw;
pub use making::{BindCell, LinkPart, MakePiece};

// What its callers take with it.
pub use directory_protocol::RecordKind;
