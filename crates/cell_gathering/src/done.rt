//! A lane that has run, and what is gathered of all of them.
use cell_lanes::{CellLaw, EpochSeat, Lane, Strong};
use tally_sums::Tally;

/// The seat of a lane that has run, and what the lane has beside it.
#[derive(Drop)]
pub struct Done {
    pub seat: EpochSeat<CellLaw>,
    pub lane: Lane,
}

/// What each lane counted, in order, and all references that the lanes kept.
#[derive(Drop)]
pub struct Gathered {
    pub tallies: Vec<Tally>,
    pub kept: Vec<Strong>,
}
