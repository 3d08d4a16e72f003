//! How a lane ends.
use lane_files::{Lane, LaneStop, Seat, WordsLaw};

/// A lane that has ended, with its seat.
#[derive(Drop)]
pub struct LaneEnd {
    pub seat: Seat<WordsLaw>,
    pub lane: Lane,
    /// Why it stopped, if it stopped before no ticket was left.
    pub end: Result<(), LaneStop>,
}
