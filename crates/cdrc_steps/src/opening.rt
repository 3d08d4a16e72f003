//! The first line of a text of steps.
ghost use Rattle.std.specs.Prelude.{◌≡◌, IfOk, IfSome, Ok, None};
ghost use Rattle.step_lines.specs.core_events.Runs.{IsShape};
ghost use Rattle.cdrc_steps.specs.Meaning.{opened};

use crate::running::Running;
use cdrc_core::{Core, Quota, Shape, StartError};
use line_machine::OutOfMemory;
use std::alloc::Global;

/// What each seat may use up.
const QUOTA: Quota = Quota {
    makes: 1 << 40,
    adds: 1 << 40,
};

/// The most seats of a core.
const MOST_SEATS: u32 = 32;

/// A core of this shape, in which nothing has happened. None exactly where a number of the shape leaves its range.
pub(crate) fn open(alloc: Global, shape: Shape) -> Result<Option<Running>, OutOfMemory>
    ensures opened { IfOk result (λ found. IfSome found (λ r. (r ≡ opened shape) × IsShape shape)) }
    ensures refused { result ≡ Ok None → IsShape shape → ⊥ }
{
    if shape.seats > MOST_SEATS {
        return Ok(None);
    }
    let mut quotas = Vec::new(alloc);
    quotas.resize(shape.seats as usize, QUOTA)?;
    match Core::start(alloc, shape, &quotas) {
        Ok(core) => Ok(Some(Running { core, events: 0 })),
        Err(StartError::BadShape(_)) => Ok(None),
        Err(StartError::OutOfMemory) => Err(OutOfMemory),
    }
}
