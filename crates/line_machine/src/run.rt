//! The run of a text.
ghost use Rattle.std.specs.Prelude.{◌≡◌, IfOk};
ghost use Rattle.line_machine.specs.Runs.{IsRun};

use crate::machine::LineMachine;
use line_words::{Lines, OutOfMemory, is_blank, push_refused, words};
use std::alloc::Global;

/// What a run wrote, and whether a line was refused, which its last line tells.
#[derive(Debug, Drop)]
pub struct Written {
    pub text: Vec<u8>,
    pub refused: bool,
}

/// Runs the lines of the text in order, up to the first that is refused, which leaves the machine as it was. Linear in
/// the text, beside what the machine takes for each line.
pub fn run_lines<A, M: LineMachine<A>>(
    alloc: Global,
    machine: &mut M,
    aid: &A,
    text: &[u8],
) -> Result<Written, OutOfMemory>
    requires { M.serves aid.now }
    ensures { IfOk result (λ written.
        IsRun M.takes M.refuses M.ends machine.old text.now written.text.items written.refused
        machine.new) }
{
    let mut written = Vec::new(alloc);
    for line in Lines::new(text) {
        let words = words(alloc, line.bytes)?;
        if is_blank(&words) {
            continue;
        }
        if let Some(reason) = machine.take(aid, alloc, &words, &mut written)? {
            push_refused(&mut written, line.number, reason)?;
            return Ok(Written {
                text: written,
                refused: true,
            });
        }
    }
    let refused = machine.end(alloc, &mut written)?;
    Ok(Written {
        text: written,
        refused,
    })
}
