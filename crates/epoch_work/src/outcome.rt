//! What was counted, and why nothing was.
use cell_reports::{CellLaw, EpochSeat};
use file_work::Refused;

/// What was counted.
#[derive(Drop)]
pub struct EpochDone {
    /// The text.
    pub bytes: Vec<u8>,
    /// Seat 0, after all other seats have left.
    pub root: EpochSeat<CellLaw>,
}

/// Why nothing was counted. The seat is one of the domain on which the words were to be counted.
pub type EpochRefused = Refused<EpochSeat<CellLaw>>;
