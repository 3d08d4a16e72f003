//! Why a call of the core was refused.
ghost use Rattle.std.specs.Prelude.{◌≡◌};
ghost use Rattle.cdrc_core.specs.declared.errors.StartError.TheVariants as start;
ghost use Rattle.cdrc_core.specs.declared.errors.StepError.TheVariants as step;
ghost use Rattle.cdrc_core.specs.declared.errors.ReplayError.TheVariants as replay;

use core_law::ShapeField;
use core_views::OutOfMemory as NoMemory;
use std::alloc::AllocError;
use thiserror::Error;

/// Why there is no core of this shape.
#[derive(Clone, Copy, PartialEq, Eq, Debug, Drop, Error)]
pub enum StartError {
    /// The first field that is out of its range.
    #[error("{0:?} out of range")]
    BadShape(ShapeField),
    #[error("out of memory")]
    OutOfMemory,
}

/// Why an event was refused.
#[derive(Clone, Copy, PartialEq, Eq, Debug, Drop, Error)]
pub enum StepError {
    #[error("not enabled")]
    NotEnabled,
    #[error("out of memory")]
    OutOfMemory,
}

/// Why a list of events was refused.
#[derive(Clone, Copy, PartialEq, Eq, Debug, Drop, Error)]
pub enum ReplayError {
    #[error("no core: {0}")]
    Start(StartError),
    /// The place of the event, counted from 0, and why it was refused.
    #[error("event {0}: {1}")]
    At(usize, StepError),
    /// There was no memory for the answers.
    #[error("out of memory")]
    OutOfMemory,
}

impl From<NoMemory> for StartError {
    ghost from_gives = { λ _ e. e ≡ start.OutOfMemory };

    fn from(_error: NoMemory) -> StartError {
        StartError::OutOfMemory
    }
}

impl From<NoMemory> for StepError {
    ghost from_gives = { λ _ e. e ≡ step.OutOfMemory };

    fn from(_error: NoMemory) -> StepError {
        StepError::OutOfMemory
    }
}

impl From<StartError> for ReplayError {
    ghost from_gives = { λ error e. e ≡ replay.Start error };

    fn from(error: StartError) -> ReplayError {
        ReplayError::Start(error)
    }
}

impl From<AllocError> for ReplayError {
    ghost from_gives = { λ _ e. e ≡ replay.OutOfMemory };

    fn from(_error: AllocError) -> ReplayError {
        ReplayError::OutOfMemory
    }
}
