//! What is told of the heap: a word, the counts of an object, an audit.
ghost use Rattle.std.specs.Prelude.{◌≡◌, ◌<◌, IfOk, OnOk};
ghost use Rattle.script_desk.specs.plain_state.Limits.{words_of_payload};
ghost use Rattle.script_desk.specs.deleter.Weighing.{Weighs};
ghost use Rattle.script_desk.specs.plain_store.Settling.{IsSettled};
ghost use Rattle.script_desk.specs.script_lines.declared.command.Command.TheVariants as command;
ghost use Rattle.script_desk.specs.Effects.{Acts};
ghost use Rattle.script_desk.specs.Handles.{is_any};
ghost use Rattle.script_desk.specs.Places.{IsBoundTo};
ghost use Rattle.domain_desk.specs.Marks.{ShowsCommand};
ghost use Rattle.domain_desk.specs.Desks.{core_of, desk_of, IsKept, plain_of};

use crate::desk::DomainDesk;
use lone_heap::{counts, read};
use script_desk::{Name, Said};

impl DomainDesk {
    /// A word of the payload.
    pub(crate) fn read(&mut self, name: &Name, word: u32) -> Said
        requires kept { IsKept self.old }
        requires bound { IsBoundTo self.old.names name.now is_any }
        requires word { word < words_of_payload }
        ensures acts { Acts (desk_of self.old) (command.Read name.now word) result
            (desk_of self.new) }
        ensures shows { ShowsCommand (command.Read name.now word) result
            (core_of self.old) (core_of self.new) }
        ensures domain { self.new.domain ≡ self.old.domain }
        ensures kept { IsKept self.new }
    {
        let slot = self.names.slot(name);
        Said::Word(read(&self.domain, &mut self.seat, slot, word))
    }

    /// The references to the object.
    pub(crate) fn counts(&mut self, name: &Name) -> Said
        requires kept { IsKept self.old }
        requires settled { IsSettled (plain_of self.old) }
        requires bound { IsBoundTo self.old.names name.now is_any }
        ensures acts { Acts (desk_of self.old) (command.Counts name.now) result
            (desk_of self.new) }
        ensures shows { ShowsCommand (command.Counts name.now) result
            (core_of self.old) (core_of self.new) }
        ensures domain { self.new.domain ≡ self.old.domain }
        ensures kept { IsKept self.new }
    {
        let slot = self.names.slot(name);
        let (strong, weak) = counts(&self.domain, &mut self.seat, slot);
        Said::Counts(strong, weak)
    }
}
