//! A domain whose readers open regions, for lanes that count the words of some files over records in strong cells, and
//! these lanes, each in a thread of its own.
//!
//! The rule that is kept is the law of `cell_law`, between any two events of all seats. Here stands what the domain is
//! opened with: a cell for each piece of all rounds; and for the seat of each lane a head to put there for each piece
//! of its files, and a make for each slot of these pieces' records. So no lane finds all cells taken, and none stops
//! for want of a make.
//!
//! It isn't promised that there is memory, nor that a lane ends.
//!
//! ```text
//! if is_within_limits(&work) {
//!     let Opened { domain, root, seats } = open_cells(alloc, &work, 2, 4096)?;          // two lanes, 4,096 slots
//!     let ends = run_lanes(&rt, alloc, &domain, seats, &Open, &work, 2)?;               // one for each seat, in order
//! }
//! ```
#![tactic(auto)]

mod ending;
mod jobs;
mod laws;
mod opened;
mod opening;
mod running;
mod shares;

pub use cell_lanes::{
    CellLaw, EpochDomain, EpochSeat, FileText, Gate, Lane, LaneStop, Strong, Work,
};
pub use ending::LaneEnd;
pub use lane_work::{OutOfMemory, is_within_limits};
pub use laws::{full_domains_lack_slots, lanes_have_makes, one_lane_lacks_slots};
pub use opened::Opened;
pub use opening::open_cells;
pub use running::run_lanes;
