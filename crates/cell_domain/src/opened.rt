//! What is opened.
use cell_lanes::{CellLaw, EpochDomain, EpochSeat};

/// A domain with seat 0 and the seats of its lanes.
#[derive(Drop)]
pub struct Opened {
    pub domain: EpochDomain<CellLaw>,
    /// Seat 0, which counts nothing.
    pub root: EpochSeat<CellLaw>,
    /// The seats of the lanes, in order.
    pub seats: Vec<EpochSeat<CellLaw>>,
}
