//! Why a text was not interned.
ghost use Rattle.std.specs.Prelude.{◌≡◌};
ghost use Rattle.cell_intern.specs.Refusals.{of_record};
ghost use Rattle.cell_intern.specs.declared.refusal.InternError.TheVariants as refused;

use cell_making::RecordError;
use epoch_refs::Spent;

/// Why a text was not interned.
#[derive(Clone, Copy, PartialEq, Eq, Debug, Drop)]
pub enum InternError {
    /// The seat has used all makes of its quota.
    MakesSpent,
    /// The seat has used all adds of its quota.
    AddsSpent,
    /// Each slot of the domain was found taken, in the course of the call.
    Full,
    /// There was no memory for the entry of what an exchange may take out of a place.
    OutOfMemory,
}

impl From<Spent> for InternError {
    ghost from_gives = { λ _ error. error ≡ refused.AddsSpent };

    fn from(_error: Spent) -> InternError {
        InternError::AddsSpent
    }
}

impl From<RecordError> for InternError {
    ghost from_gives = { λ error made. made ≡ of_record error };

    fn from(error: RecordError) -> InternError {
        match error {
            RecordError::MakesSpent => InternError::MakesSpent,
            RecordError::AddsSpent => InternError::AddsSpent,
            RecordError::Full => InternError::Full,
            RecordError::OutOfMemory => InternError::OutOfMemory,
        }
    }
}
