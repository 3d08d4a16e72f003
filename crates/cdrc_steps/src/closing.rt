//! What the end of a text of steps writes.
ghost use Rattle.std.specs.Prelude.{◌≡◌, ◌<◌, ◌++◌, OnOk};
ghost use Rattle.cdrc_steps.specs.Meaning.{closing, slot_line};

use crate::running::Running;
use cdrc_core::SlotId;
use line_machine::{OutOfMemory, push_number};

impl Running {
    /// Appends the line of a slot that isn't free.
    fn push_slot(&self, slot: u32, text: &mut Vec<u8>) -> Result<(), OutOfMemory>
        requires { slot < self.now.shape.slots }
        ensures { OnOk result
            (text.new.items ≡ text.old.items ++ slot_line self.now.shape self.now.core slot) }
    {
        if self.core.is_free(SlotId(slot)) {
            return Ok(());
        }
        push_number(text, b"slot ", u64::from(slot))?;
        push_number(text, b" strong ", self.core.strong_word(SlotId(slot)))?;
        push_number(text, b" weak ", self.core.weak_word(SlotId(slot)))?;
        text.push(b'\n')?;
        Ok(())
    }

    /// Appends the lines of all slots that aren't free, and how many events there were.
    pub(crate) fn close(&self, text: &mut Vec<u8>) -> Result<(), OutOfMemory>
        ensures { OnOk result (text.new.items ≡ text.old.items ++ closing self.now) }
    {
        for slot in 0..self.core.shape().slots {
            self.push_slot(slot, text)?;
        }
        push_number(text, b"events ", self.events)?;
        text.push(b'\n')?;
        Ok(())
    }
}
