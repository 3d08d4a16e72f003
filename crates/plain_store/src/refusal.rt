//! Why a plain heap makes no object.
ghost use Rattle.std.specs.Prelude.{◌≡◌};
ghost use Rattle.plain_store.specs.declared.refusal.MakeRefused.TheVariants as refused;

use out_of_memory::OutOfMemory;
use std::alloc::AllocError;

/// No slot is free, where nothing else is refused.
#[derive(Clone, Copy, PartialEq, Eq, Debug, Drop)]
pub struct Full;

#[derive(Clone, Copy, PartialEq, Eq, Debug, Drop)]
pub enum MakeRefused {
    /// No slot is free.
    Full,
    OutOfMemory,
}

impl From<Full> for MakeRefused {
    ghost from_gives = { λ _ e. e ≡ refused.Full };

    fn from(_error: Full) -> MakeRefused {
        MakeRefused::Full
    }
}

impl From<OutOfMemory> for MakeRefused {
    ghost from_gives = { λ _ e. e ≡ refused.OutOfMemory };

    fn from(_error: OutOfMemory) -> MakeRefused {
        MakeRefused::OutOfMemory
    }
}

impl From<AllocError> for MakeRefused {
    ghost from_gives = { λ _ e. e ≡ refused.OutOfMemory };

    fn from(_error: AllocError) -> MakeRefused {
        MakeRefused::OutOfMemory
    }
}
