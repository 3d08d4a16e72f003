//! What lanes that count words work on and keep, whatever domain they count in: files cut into pieces, the tickets that
//! stand for them, how much of a domain they take, and a lane's tally and references.
//!
//! The rule that is kept is that of the pieces: each lies in its file, and has 1 to 4,096 bytes. A lane keeps at most
//! one reference to a slot for the file that it counts at present.
//!
//! Nothing here takes a step, and it isn't said whether a seat owns what a lane keeps.
//!
//! ```text
//! let work = Work { files: vec![in alloc; FileText::cut(alloc, bytes, 1_000_000)?]?, rounds: 1 };
//! let mut lane = Lane::new(alloc, 0);
//! lane.tally.add(work.file(0).piece(0))?;
//! match lane.keeper.admit(handle) {
//!     Ok(None) => ..,                    // it is kept
//!     Ok(Some(handle)) => ..,            // one to its slot is kept for this file: give it up
//!     Err(refused) => ..,                // no memory: refused.back is the reference
//! }
//! ```
#![tactic(auto)]

mod file;
mod keeper;
mod lane;
mod sizes;
mod work;

pub use cdrc_text::{PiecesError, Tally};
pub use counted_handles::Strong;
pub use file::FileText;
pub use keeper::Keeper;
pub use lane::Lane;
pub use out_of_memory::{Back, OutOfMemory};
pub use sizes::{count_parts, count_pieces, count_slots, is_within_limits};
pub use work::Work;
