//! Why the words of a line weren't parsed.

ghost use Rattle.std.specs.Prelude.{◌≡◌};
ghost use Rattle.script_lines.specs.declared.refused.CommandRefused.TheVariants.{OutOfMemory};

use std::alloc::AllocError;

/// Why a line wasn't parsed.
#[derive(Clone, Copy, PartialEq, Eq, Debug, Drop)]
pub enum CommandRefused {
    /// The words spell no line.
    Syntax,
    /// There was no memory for a name.
    OutOfMemory,
}

impl From<AllocError> for CommandRefused {
    ghost from_gives = { λ _ r. r ≡ OutOfMemory };

    fn from(_error: AllocError) -> CommandRefused {
        CommandRefused::OutOfMemory
    }
}
