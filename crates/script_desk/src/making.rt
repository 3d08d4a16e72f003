//! Objects are made.
ghost use Rattle.std.specs.Prelude.{◌≡◌, ◌≤◌, ◌^◌, IfOk, None};
ghost use Rattle.script_desk.specs.Desks.{bound};
ghost use Rattle.script_desk.specs.Effects.{MakesOne};

use crate::binding::bind;
use crate::desk::Desk;
use crate::handle::Handle;
use crate::kind::payload_of;
use crate::maker::Make;
use crate::said::Said;
use plain_settling::MakeRefused;
use script_lines::{Name, OutOfMemory};

impl Desk {
    /// A new object of this weight, or none where no slot is free.
    pub(crate) fn make(&mut self, name: &Name, weight: u64) -> Result<Said, OutOfMemory>
        requires weight { weight ≤ 2 ^ 32 }
        requires unbound { bound self.old.names name.now ≡ None }
        ensures { IfOk result (λ answer. MakesOne self.old name.now weight answer self.new) }
    {
        let number = self.makes;
        let Some(makes) = number.checked_add(1) else {
            return Err(OutOfMemory);
        };
        let maker = Make {
            number,
            name: String::from_str(self.alloc, name.as_str())?,
        };
        let hand = match self.heap.make(payload_of(weight)) {
            Ok(hand) => hand,
            Err(MakeRefused::Full) => return Ok(Said::Full),
            Err(MakeRefused::OutOfMemory) => return Err(OutOfMemory),
        };
        let slot = hand.slot();
        bind(
            self.alloc,
            &mut self.heap,
            &mut self.names,
            name,
            Handle::Strong(hand),
        )?;
        self.makers[slot.0 as usize] = maker;
        self.makes = makes;
        Ok(Said::Made)
    }
}
