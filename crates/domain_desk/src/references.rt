//! References: one more.
ghost use Rattle.std.specs.Prelude.{◌≡◌, IfOk, OnOk, None};
ghost use Rattle.script_desk.specs.script_lines.declared.command.Command.TheVariants as command;
ghost use Rattle.script_desk.specs.Desks.{bound};
ghost use Rattle.script_desk.specs.Effects.{Acts};
ghost use Rattle.script_desk.specs.Handles.{is_strong, is_weak};
ghost use Rattle.script_desk.specs.Places.{IsBoundTo};
ghost use Rattle.domain_desk.specs.Marks.{ShowsCommand};
ghost use Rattle.domain_desk.specs.Desks.{core_of, desk_of, IsKept};

use crate::desk::DomainDesk;
use lone_heap::{Strong, UpgradeError, Weak, copy, copy_weakly, upgrade_lone, weaken_lone};
use script_desk::{Hand, Handle, Name, OutOfMemory, Said, WeakHand};

impl DomainDesk {
    /// One more strong reference, by another name.
    pub(crate) fn copy(&mut self, name: &Name, new: &Name) -> Result<Said, OutOfMemory>
        requires kept { IsKept self.old }
        requires bound { IsBoundTo self.old.names name.now is_strong }
        requires unbound { bound self.old.names new.now ≡ None }
        ensures acts { IfOk result (λ answer. Acts (desk_of self.old)
            (command.Copy name.now new.now) answer (desk_of self.new)) }
        ensures shows { IfOk result (λ answer.
            ShowsCommand (command.Copy name.now new.now) answer
            (core_of self.old) (core_of self.new)) }
        ensures domain { self.new.domain ≡ self.old.domain }
        ensures kept { OnOk result (IsKept self.new) }
    {
        let slot = self.names.strong_slot(name);
        let Ok(more) = copy(&self.domain, &mut self.seat, &Strong::of(slot)) else {
            return Err(OutOfMemory);
        };
        let hand = Hand::of(more.slot());
        let Ok(()) = self.names.bind(self.alloc, new, Handle::Strong(hand)) else {
            return Err(OutOfMemory);
        };
        Ok(Said::Nothing)
    }

    /// A weak reference to the object of a strong one.
    pub(crate) fn weaken(&mut self, name: &Name, new: &Name) -> Result<Said, OutOfMemory>
        requires kept { IsKept self.old }
        requires bound { IsBoundTo self.old.names name.now is_strong }
        requires unbound { bound self.old.names new.now ≡ None }
        ensures acts { IfOk result (λ answer. Acts (desk_of self.old)
            (command.Weaken name.now new.now) answer (desk_of self.new)) }
        ensures shows { IfOk result (λ answer.
            ShowsCommand (command.Weaken name.now new.now) answer
            (core_of self.old) (core_of self.new)) }
        ensures domain { self.new.domain ≡ self.old.domain }
        ensures kept { OnOk result (IsKept self.new) }
    {
        let slot = self.names.strong_slot(name);
        let Ok(more) = weaken_lone(&self.domain, &mut self.seat, &Strong::of(slot)) else {
            return Err(OutOfMemory);
        };
        let hand = WeakHand::of(more.slot());
        let Ok(()) = self.names.bind(self.alloc, new, Handle::Weak(hand)) else {
            return Err(OutOfMemory);
        };
        Ok(Said::Nothing)
    }

    /// One more weak reference, by another name.
    pub(crate) fn copy_weak(&mut self, name: &Name, new: &Name) -> Result<Said, OutOfMemory>
        requires kept { IsKept self.old }
        requires bound { IsBoundTo self.old.names name.now is_weak }
        requires unbound { bound self.old.names new.now ≡ None }
        ensures acts { IfOk result (λ answer. Acts (desk_of self.old)
            (command.CopyWeak name.now new.now) answer (desk_of self.new)) }
        ensures shows { IfOk result (λ answer.
            ShowsCommand (command.CopyWeak name.now new.now) answer
            (core_of self.old) (core_of self.new)) }
        ensures domain { self.new.domain ≡ self.old.domain }
        ensures kept { OnOk result (IsKept self.new) }
    {
        let slot = self.names.weak_slot(name);
        let Ok(more) = copy_weakly(&self.domain, &mut self.seat, &Weak::of(slot)) else {
            return Err(OutOfMemory);
        };
        let hand = WeakHand::of(more.slot());
        let Ok(()) = self.names.bind(self.alloc, new, Handle::Weak(hand)) else {
            return Err(OutOfMemory);
        };
        Ok(Said::Nothing)
    }

    /// A strong reference to the object of a weak one, if it hasn't ended.
    pub(crate) fn upgrade(&mut self, name: &Name, new: &Name) -> Result<Said, OutOfMemory>
        requires kept { IsKept self.old }
        requires bound { IsBoundTo self.old.names name.now is_weak }
        requires unbound { bound self.old.names new.now ≡ None }
        ensures acts { IfOk result (λ answer. Acts (desk_of self.old)
            (command.Upgrade name.now new.now) answer (desk_of self.new)) }
        ensures shows { IfOk result (λ answer.
            ShowsCommand (command.Upgrade name.now new.now) answer
            (core_of self.old) (core_of self.new)) }
        ensures domain { self.new.domain ≡ self.old.domain }
        ensures kept { OnOk result (IsKept self.new) }
    {
        let slot = self.names.weak_slot(name);
        let more = match upgrade_lone(&self.domain, &mut self.seat, &Weak::of(slot)) {
            Ok(more) => more,
            Err(UpgradeError::Ended) => return Ok(Said::Dead),
            Err(UpgradeError::Spent) => return Err(OutOfMemory),
        };
        let hand = Hand::of(more.slot());
        let Ok(()) = self.names.bind(self.alloc, new, Handle::Strong(hand)) else {
            return Err(OutOfMemory);
        };
        Ok(Said::Up)
    }
}
