//! Why nothing was counted.
ghost use Rattle.std.specs.Prelude.{◌≡◌};
ghost use Rattle.file_work.specs.declared.refused.Refused.TheVariants as refused;

use lane_work::OutOfMemory as NoMemory;
use std::alloc::AllocError;

/// Why nothing was counted. `S` is the seat that was refused.
#[derive(Drop)]
pub enum Refused<S> {
    /// The source failed.
    Read,
    /// A limit is passed.
    TooLarge,
    /// This seat found each slot taken.
    Full(S),
    /// This seat had no add left.
    Spent(S),
    OutOfMemory,
}

impl<S> From<NoMemory> for Refused<S> {
    ghost from_gives = { λ _ error. error ≡ refused.OutOfMemory };

    fn from(_error: NoMemory) -> Refused<S> {
        Refused::OutOfMemory
    }
}

impl<S> From<AllocError> for Refused<S> {
    ghost from_gives = { λ _ error. error ≡ refused.OutOfMemory };

    fn from(_error: AllocError) -> Refused<S> {
        Refused::OutOfMemory
    }
}
