//! What an audit of the heap shows, by names.
ghost use Rattle.std.specs.Prelude.{◌≡◌, IfOk, OnOk};
ghost use Rattle.script_desk.specs.deleter.Weighing.{Weighs};
ghost use Rattle.script_desk.specs.plain_store.Settling.{IsSettled};
ghost use Rattle.script_desk.specs.script_lines.declared.command.Command.TheVariants as command;
ghost use Rattle.script_desk.specs.Effects.{Acts};
ghost use Rattle.script_desk.specs.Kinds.{IsScriptPayload, script_weight};
ghost use Rattle.domain_desk.specs.Marks.{ShowsCommand};
ghost use Rattle.domain_desk.specs.Desks.{core_of, desk_of, IsKept, plain_of};

use crate::desk::DomainDesk;
use lone_heap::audit_lone;
use script_desk::{Deleter, OutOfMemory, Said, ScriptKind, Shown, makers_of, ranks};

impl DomainDesk {
    /// What lives, waits and lies in cycles.
    pub(crate) fn audit<F: Fn(&[u64; 16]) -> u64>(
        &mut self,
        weigh: &Deleter<ScriptKind, F>,
    ) -> Result<Said, OutOfMemory>
        requires kept { IsKept self.old }
        requires settled { IsSettled (plain_of self.old) }
        requires weighs { Weighs IsScriptPayload script_weight F.Fn weigh.now }
        ensures acts { IfOk result (λ answer.
            Acts (desk_of self.old) command.Audit answer (desk_of self.new)) }
        ensures shows { IfOk result (λ answer.
            ShowsCommand (command.Audit) answer (core_of self.old) (core_of self.new)) }
        ensures domain { self.new.domain ≡ self.old.domain }
        ensures kept { OnOk result (IsKept self.new) }
    {
        let ranks = ranks(self.alloc, &self.makers)?;
        let found = audit_lone(self.alloc, &self.domain, &mut self.seat, weigh, &ranks)?;
        Ok(Said::Audited(Shown {
            live: found.live,
            deferred: found.deferred,
            cyclic: found.cyclic,
            bytes: found.bytes,
            walk: makers_of(self.alloc, &self.makers, &found.walk)?,
        }))
    }
}
