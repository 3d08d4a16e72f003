//! How a lane ends.
use cell_lanes::{CellLaw, EpochSeat, Lane, LaneStop};

/// A lane that has ended, with its seat.
#[derive(Drop)]
pub struct LaneEnd {
    pub seat: EpochSeat<CellLaw>,
    pub lane: Lane,
    /// Why it stopped, if it stopped before all its files were counted.
    pub end: Result<(), LaneStop>,
}
