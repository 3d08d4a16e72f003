//! Why the numbers of a text weren't given.

ghost use Rattle.std.specs.Prelude.{◌≡◌};
ghost use Rattle.number_text.specs.declared.error.NumbersError.TheVariants.{OutOfMemory};

use std::alloc::{AllocError, AllocFailed};
use thiserror::Error;

/// Why `read_numbers` gave none.
#[derive(Clone, Copy, PartialEq, Eq, Debug, Drop, Error)]
pub enum NumbersError {
    /// There are more numbers than the limit.
    #[error("too many numbers")]
    TooMany,
    /// There was no memory for the numbers.
    #[error("out of memory")]
    OutOfMemory,
}

impl From<AllocError> for NumbersError {
    ghost from_gives = { λ _ e. e ≡ OutOfMemory };

    fn from(_error: AllocError) -> NumbersError {
        NumbersError::OutOfMemory
    }
}

impl<T: Drop> From<AllocFailed<T>> for NumbersError {
    ghost from_gives = { λ _ e. e ≡ OutOfMemory };

    fn from(_error: AllocFailed<T>) -> NumbersError {
        NumbersError::OutOfMemory
    }
}
