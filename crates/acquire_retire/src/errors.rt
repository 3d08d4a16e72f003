//! Why no domain was opened.
ghost use Rattle.std.specs.Prelude.{◌≡◌};
ghost use Rattle.acquire_retire.specs.declared.errors.OpenError.TheVariants as opening;

use core_promises::ShapeField;
use dying_slots::OutOfMemory as NoMemory;
use thiserror::Error;

/// Why there is no domain of this shape.
#[derive(Clone, Copy, PartialEq, Eq, Debug, Drop, Error)]
pub enum OpenError {
    /// The first field that is out of its range.
    #[error("{0:?} out of range")]
    BadShape(ShapeField),
    #[error("out of memory")]
    OutOfMemory,
}

impl From<NoMemory> for OpenError {
    ghost from_gives = { λ _ e. e ≡ opening.OutOfMemory };

    fn from(_error: NoMemory) -> OpenError {
        OpenError::OutOfMemory
    }
}
