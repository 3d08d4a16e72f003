//! What is told of the heap: a word, the counts of an object, an audit.
ghost use Rattle.std.specs.Prelude.{◌<◌, IfOk};
ghost use Rattle.plain_audit.specs.plain_state.Limits.{words_of_payload};
ghost use Rattle.plain_settling.specs.plain_store.Settling.{IsSettled};
ghost use Rattle.script_lines.specs.declared.command.Command.TheVariants as command;
ghost use Rattle.script_desk.specs.Audits.{AnswersAudit};
ghost use Rattle.script_desk.specs.Effects.{Acts};
ghost use Rattle.script_desk.specs.Handles.{is_any};
ghost use Rattle.script_desk.specs.Places.{IsBoundTo};

use crate::desk::Desk;
use crate::kind::ScriptKind;
use crate::makers::{makers_of, ranks};
use crate::said::{Said, Shown};
use plain_audit::{Deleter, audit_heap};
use script_lines::{Name, OutOfMemory};

impl Desk {
    /// A word of the payload.
    pub(crate) fn read(&self, name: &Name, word: u32) -> Said
        requires bound { IsBoundTo self.now.names name.now is_any }
        requires word { word < words_of_payload }
        ensures { Acts self.now (command.Read name.now word) result self.now }
    {
        Said::Word(self.heap.read(self.slot(name), word))
    }

    /// The references to the object.
    pub(crate) fn counts(&self, name: &Name) -> Said
        requires { IsBoundTo self.now.names name.now is_any }
        ensures { Acts self.now (command.Counts name.now) result self.now }
    {
        let (strong, weak) = self.heap.counts(self.slot(name));
        Said::Counts(strong, weak)
    }

    /// What lives, waits and lies in cycles.
    pub(crate) fn audit(&self) -> Result<Said, OutOfMemory>
        requires { IsSettled self.now.plain }
        ensures { IfOk result (AnswersAudit self.now) }
    {
        let weigh: Deleter<ScriptKind, _> = Deleter::keep(|payload: &[u64; 16]| payload[0]);
        let ranks = ranks(self.alloc, &self.makers)?;
        let found = audit_heap(self.alloc, &self.heap, &weigh, &ranks)?;
        Ok(Said::Audited(Shown {
            live: found.live,
            deferred: found.deferred,
            cyclic: found.cyclic,
            bytes: found.bytes,
            walk: makers_of(self.alloc, &self.makers, &found.walk)?,
        }))
    }
}
