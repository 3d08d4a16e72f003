//! Why a lane goes no further.
ghost use Rattle.std.specs.Prelude.{◌≡◌};
ghost use Rattle.cell_lanes.specs.Stopping.{of_intern};

use cell_intern::InternError;

/// Why a lane goes no further.
#[derive(Clone, Copy, PartialEq, Eq, Debug, Drop)]
pub enum LaneStop {
    /// The seat has used all makes of its quota.
    MakesSpent,
    /// The seat has used all adds of its quota.
    AddsSpent,
    /// Each slot of the domain was found taken, while a piece was interned.
    Full,
    /// There was no memory: for the entry of what an exchange may take out of a cell, for a word of the tally, or for
    /// a reference that is kept.
    OutOfMemory,
}

impl From<InternError> for LaneStop {
    ghost from_gives = { λ error stop. stop ≡ of_intern error };

    fn from(error: InternError) -> LaneStop {
        match error {
            InternError::MakesSpent => LaneStop::MakesSpent,
            InternError::AddsSpent => LaneStop::AddsSpent,
            InternError::Full => LaneStop::Full,
            InternError::OutOfMemory => LaneStop::OutOfMemory,
        }
    }
}
