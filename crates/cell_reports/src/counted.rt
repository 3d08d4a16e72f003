//! What was counted, and why nothing was.
ghost use Rattle.std.specs.Prelude.{◌≡◌};
ghost use Rattle.cell_reports.specs.declared.counted.EpochCountError.TheVariants as refused;

use cell_domain::{CellLaw, EpochSeat, OutOfMemory as NoMemory};
use std::alloc::AllocError;

/// What was counted.
#[derive(Drop)]
pub struct EpochCounted {
    /// The report.
    pub text: Vec<u8>,
    /// Seat 0, which is alone by now.
    pub root: EpochSeat<CellLaw>,
}

/// Why nothing was counted.
#[derive(Drop)]
pub enum EpochCountError {
    OutOfMemory,
    /// This seat found each slot taken.
    Full(EpochSeat<CellLaw>),
    /// This seat had no add left.
    Spent(EpochSeat<CellLaw>),
}

impl From<NoMemory> for EpochCountError {
    ghost from_gives = { λ _ error. error ≡ refused.OutOfMemory };

    fn from(_error: NoMemory) -> EpochCountError {
        EpochCountError::OutOfMemory
    }
}

impl From<AllocError> for EpochCountError {
    ghost from_gives = { λ _ error. error ≡ refused.OutOfMemory };

    fn from(_error: AllocError) -> EpochCountError {
        EpochCountError::OutOfMemory
    }
}
