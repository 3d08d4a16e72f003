//! Objects are made.
ghost use Rattle.std.specs.Prelude.{◌≡◌, ◌≤◌, ◌^◌, IfOk, OnOk, None};
ghost use Rattle.script_desk.specs.script_lines.declared.command.Command.TheVariants as command;
ghost use Rattle.script_desk.specs.Desks.{bound};
ghost use Rattle.script_desk.specs.Effects.{MakesOne};
ghost use Rattle.domain_desk.specs.Marks.{ShowsCommand};
ghost use Rattle.domain_desk.specs.Desks.{core_of, desk_of, IsKept};

use crate::desk::DomainDesk;
use lone_heap::{MakeError, make};
use script_desk::{Hand, Handle, Make, Name, OutOfMemory, Said, payload_of};

impl DomainDesk {
    /// A new object of this weight, or none where no slot is free.
    pub(crate) fn make(&mut self, name: &Name, weight: u64) -> Result<Said, OutOfMemory>
        requires kept { IsKept self.old }
        requires weight { weight ≤ 2 ^ 32 }
        requires unbound { bound self.old.names name.now ≡ None }
        ensures makes { IfOk result (λ answer.
            MakesOne (desk_of self.old) name.now weight answer (desk_of self.new)) }
        ensures shows { IfOk result (λ answer.
            ShowsCommand (command.Make name.now weight) answer
            (core_of self.old) (core_of self.new)) }
        ensures domain { self.new.domain ≡ self.old.domain }
        ensures kept { OnOk result (IsKept self.new) }
    {
        let number = self.makes;
        let Some(makes) = number.checked_add(1) else {
            return Err(OutOfMemory);
        };
        let maker = Make {
            number,
            name: String::from_str(self.alloc, name.as_str())?,
        };
        let more = match make(&self.domain, &mut self.seat, &payload_of(weight)) {
            Ok(more) => more,
            Err(MakeError::Full) => return Ok(Said::Full),
            Err(_spent) => return Err(OutOfMemory),
        };
        let hand = Hand::of(more.slot());
        let slot = hand.slot();
        let Ok(()) = self.names.bind(self.alloc, name, Handle::Strong(hand)) else {
            return Err(OutOfMemory);
        };
        self.makers[slot.0 as usize] = maker;
        self.makes = makes;
        Ok(Said::Made)
    }
}
