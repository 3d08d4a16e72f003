//! Why the pieces of a text weren't given.

ghost use Rattle.std.specs.Prelude.{◌≡◌};
ghost use Rattle.cdrc_text.specs.declared.error.PiecesError.TheVariants.{OutOfMemory};

use std::alloc::{AllocError, AllocFailed};
use thiserror::Error;

/// Why `pieces` gave none.
#[derive(Clone, Copy, PartialEq, Eq, Debug, Drop, Error)]
pub enum PiecesError {
    /// There are more pieces than the limit. The number is the byte place of the first piece over it.
    #[error("too many pieces: one over the limit begins at byte {0}")]
    TooMany(u64),
    /// There was no memory for the places.
    #[error("out of memory")]
    OutOfMemory,
}

impl From<AllocError> for PiecesError {
    ghost from_gives = { λ _ e. e ≡ OutOfMemory };

    fn from(_error: AllocError) -> PiecesError {
        PiecesError::OutOfMemory
    }
}

impl<T: Drop> From<AllocFailed<T>> for PiecesError {
    ghost from_gives = { λ _ e. e ≡ OutOfMemory };

    fn from(_error: AllocFailed<T>) -> PiecesError {
        PiecesError::OutOfMemory
    }
}
