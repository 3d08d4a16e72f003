//! Why a command is refused.
ghost use Rattle.std.specs.Prelude.{◌≡◌};
ghost use Rattle.script_desk.specs.Desks.{scope_of};
ghost use Rattle.script_desk.specs.Faults.{IsFault};
ghost use Rattle.domain_desk.specs.Desks.{IsKept, desk_of, sizes_of};

use crate::desk::DomainDesk;
use script_desk::{Command, Reason, Sizes, fault};

impl DomainDesk {
    /// Why the command is refused: the first of range, name and kind that is wrong with it, or None where nothing is.
    pub fn fault(&self, command: &Command) -> Option<Reason>
        requires { IsKept self.now }
        ensures { IsFault (scope_of (desk_of self.now)) command.now result }
    {
        fault(&self.names, self.sizes(), command)
    }

    /// How many cells the heap has.
    pub(crate) fn sizes(&self) -> Sizes
        requires { IsKept self.now }
        ensures { result ≡ sizes_of self.now }
    {
        Sizes {
            cells: self.cells,
            weak_cells: self.weak_cells,
        }
    }
}
