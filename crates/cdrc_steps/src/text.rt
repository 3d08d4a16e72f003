//! The meaning of a text of steps.
ghost use Rattle.std.specs.Prelude.{◌≡◌, IfOk};
ghost use Rattle.cdrc_steps.specs.Meaning.{IsSteps};

use crate::running::StepMachine;
use line_machine::{OutOfMemory, Written, run_lines};
use std::alloc::Global;

/// What the text of steps writes. The first line with words is `shape SEATS SLOTS CELLS WEAKCELLS BATCH`, and each
/// later one a seat, an event and its arguments; a quota of 2^40 makes and adds is each seat's. A line is refused as
/// `syntax`, `range` or `not enabled`, tested in this order. Linear in the text for a fixed shape.
pub fn steps(alloc: Global, text: &[u8]) -> Result<Written, OutOfMemory>
    ensures { IfOk result (λ written. IsSteps text.now written.text.items written.refused) }
{
    let mut machine = StepMachine { running: None };
    run_lines(alloc, &mut machine, &(), text)
}
