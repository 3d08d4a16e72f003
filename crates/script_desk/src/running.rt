//! A command is run.
ghost use Rattle.std.specs.Prelude.{IfOk, OnOk};
ghost use Rattle.plain_settling.specs.plain_store.Settling.{IsSettled};
ghost use Rattle.script_desk.specs.Desks.{Settles, scope_of};
ghost use Rattle.script_desk.specs.Effects.{Acts, Runs};
ghost use Rattle.script_desk.specs.Faults.{IsFault, IsFaultless};

use crate::desk::Desk;
use crate::faults::fault;
use crate::said::Said;
use script_lines::{Command, OutOfMemory, Reason};

impl Desk {
    /// Why the command is refused: the first of range, name and kind that is wrong with it, or None where nothing is.
    pub fn fault(&self, command: &Command) -> Option<Reason>
        ensures { IsFault (scope_of self.now) command.now result }
    {
        fault(&self.names, self.sizes(), command)
    }

    /// Does what the command says, lets the heap settle, and answers what the command answers. After an allocation
    /// failure the command may have been done in part, and the heap may not have settled.
    pub fn run(&mut self, command: &Command) -> Result<Said, OutOfMemory>
        requires faultless { IsFaultless (scope_of self.old) command.now }
        requires settled { IsSettled self.old.plain }
        ensures { IfOk result (λ answer. Runs self.old command.now answer self.new) }
    {
        let said = self.act(command)?;
        self.settle()?;
        Ok(said)
    }

    fn act(&mut self, command: &Command) -> Result<Said, OutOfMemory>
        requires faultless { IsFaultless (scope_of self.old) command.now }
        requires settled { IsSettled self.old.plain }
        ensures { IfOk result (λ answer. Acts self.old command.now answer self.new) }
    {
        match command {
            Command::Make(name, weight) => self.make(name, *weight as u64),
            Command::Copy(name, new) => self.copy(name, new),
            Command::Weaken(name, new) => self.weaken(name, new),
            Command::CopyWeak(name, new) => self.copy_weak(name, new),
            Command::Upgrade(name, new) => self.upgrade(name, new),
            Command::Drop(name) | Command::DropWeak(name) | Command::EndSnapshot(name) => {
                self.give(name);
                Ok(Said::Nothing)
            }
            Command::Put(place, name) => self.put(place, name),
            Command::Clear(place) => self.clear(place),
            Command::Load(place, new) => self.load(place, new),
            Command::Replace(place, old, new) => self.replace(place, old, new),
            Command::Snap(place, new) => self.snap(place, new),
            Command::Keep(name, new) => self.keep(name, new),
            Command::Read(name, word) => Ok(self.read(name, *word as u32)),
            Command::Counts(name) => Ok(self.counts(name)),
            Command::Audit => self.audit(),
        }
    }

    fn settle(&mut self) -> Result<(), OutOfMemory>
        ensures { OnOk result (Settles self.old self.new) }
    {
        self.heap.settle()?;
        Ok(())
    }
}
