//! What a lane does that counts the words of files over records in strong cells, in a domain whose readers open
//! regions: it interns each piece of its files, counts it in its own tally, and keeps one reference to the record of
//! each word of a file.
//!
//! The rule that is kept is the law of `cell_law`, between any two events of all seats: no two cells have records of
//! one text. Which words a lane counted is told by its tally, and which records it keeps by its seat's view.
//!
//! Lane i of n takes the files i, i + n, i + 2n and so on, in each round. It isn't promised that a call returns: an
//! intern may lose its cell to other seats.
//!
//! ```text
//! let mut lane = Lane::new(alloc, 0);
//! run_lane(&rt, alloc, &domain, &mut seat, &gate, &mut lane, &work, 1)?;   // counts all files, in all rounds
//! lane.tally.get(b"ab")
//! lane.keeper.kept        // for each file of the last round, one reference to the record of each distinct word
//! ```
#![tactic(auto)]

mod counting;
mod keeping;
mod lanes;
mod laws;
mod refusal;

pub use cell_intern::{CellLaw, EpochDomain, EpochSeat, InternError, Strong, e_leave};
pub use counting::{count_file, count_piece};
pub use lane_gate::Gate;
pub use lane_work::{FileText, Keeper, Lane, Work};
pub use lanes::run_lane;
pub use laws::{lanes_share_tickets, stopped_lanes_keep};
pub use refusal::LaneStop;
