//! A command is run.
ghost use Rattle.std.specs.Prelude.{◌≡◌, IfOk, OnOk, []};
ghost use Rattle.script_desk.specs.deleter.Weighing.{Weighs};
ghost use Rattle.script_desk.specs.plain_store.Settling.{IsSettled};
ghost use Rattle.script_desk.specs.Desks.{Tidied, scope_of};
ghost use Rattle.script_desk.specs.Effects.{Runs};
ghost use Rattle.script_desk.specs.Faults.{IsFaultless};
ghost use Rattle.script_desk.specs.Kinds.{IsScriptPayload, script_weight};
ghost use Rattle.lone_heap.specs.Trails.{Shows};
ghost use Rattle.domain_desk.specs.Marks.{ShowsCommand};
ghost use Rattle.domain_desk.specs.Desks.{core_of, desk_of, IsKept, plain_of};
ghost use Rattle.domain_desk.specs.Runs.{Begins};

use crate::desk::DomainDesk;
use lone_heap::settle_all;
use script_desk::{Command, Deleter, OutOfMemory, Said, ScriptKind};

impl DomainDesk {
    /// Does what the command says, lets the seat settle, and answers what the command answers. After an allocation
    /// failure, or where the seat's adds or makes are used up, nothing is promised of the desk.
    pub fn run<F: Fn(&[u64; 16]) -> u64>(
        &mut self,
        command: &Command,
        weigh: &Deleter<ScriptKind, F>,
    ) -> Result<Said, OutOfMemory>
        requires kept { IsKept self.old }
        requires faultless { IsFaultless (scope_of (desk_of self.old)) command.now }
        requires settled { IsSettled (plain_of self.old) }
        requires weighs { Weighs IsScriptPayload script_weight F.Fn weigh.now }
        ensures runs { IfOk result (λ answer.
            Runs (desk_of self.old) command.now answer (desk_of self.new)) }
        ensures shows { IfOk result (λ answer.
            ShowsCommand (command.now) answer (core_of self.old) (core_of self.new)) }
        ensures domain { self.new.domain ≡ self.old.domain }
        ensures kept { OnOk result (IsKept self.new) }
    {
        let said = self.act(command, weigh)?;
        self.settle(weigh);
        Ok(said)
    }

    fn act<F: Fn(&[u64; 16]) -> u64>(
        &mut self,
        command: &Command,
        weigh: &Deleter<ScriptKind, F>,
    ) -> Result<Said, OutOfMemory>
        requires kept { IsKept self.old }
        requires faultless { IsFaultless (scope_of (desk_of self.old)) command.now }
        requires settled { IsSettled (plain_of self.old) }
        requires weighs { Weighs IsScriptPayload script_weight F.Fn weigh.now }
        ensures begins { IfOk result (λ answer.
            Begins (desk_of self.old) command.now answer (desk_of self.new)) }
        ensures shows { IfOk result (λ answer.
            ShowsCommand (command.now) answer (core_of self.old) (core_of self.new)) }
        ensures domain { self.new.domain ≡ self.old.domain }
        ensures kept { OnOk result (IsKept self.new) }
    {
        match command {
            Command::Make(name, weight) => self.make(name, *weight as u64),
            Command::Copy(name, new) => self.copy(name, new),
            Command::Weaken(name, new) => self.weaken(name, new),
            Command::CopyWeak(name, new) => self.copy_weak(name, new),
            Command::Upgrade(name, new) => self.upgrade(name, new),
            Command::Load(place, new) => self.load(place, new),
            Command::Replace(place, old, new) => Ok(self.replace(place, old, new)),
            Command::Snap(place, new) => self.snap(place, new),
            Command::Keep(name, new) => self.keep(name, new),
            Command::Read(name, word) => Ok(self.read(name, *word as u32)),
            Command::Counts(name) => Ok(self.counts(name)),
            Command::Audit => self.audit(weigh),
            Command::Put(place, name) => {
                self.put(place, name);
                Ok(Said::Nothing)
            }
            Command::Clear(place) => {
                self.clear(place);
                Ok(Said::Nothing)
            }
            Command::Drop(name) | Command::DropWeak(name) | Command::EndSnapshot(name) => {
                self.give(name);
                Ok(Said::Nothing)
            }
        }
    }

    fn settle<F: Fn(&[u64; 16]) -> u64>(&mut self, weigh: &Deleter<ScriptKind, F>)
        requires kept { IsKept self.old }
        requires weighs { Weighs IsScriptPayload script_weight F.Fn weigh.now }
        ensures tidied { Tidied (desk_of self.old) (desk_of self.new) }
        ensures settled { IsSettled (plain_of self.new) }
        ensures trail { Shows [] (core_of self.old) (core_of self.new) }
        ensures domain { self.new.domain ≡ self.old.domain }
        ensures kept { IsKept self.new }
    {
        settle_all(&self.domain, &mut self.seat, weigh);
    }
}
