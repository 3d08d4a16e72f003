//! References: one more, one fewer.
ghost use Rattle.std.specs.Prelude.{◌≡◌, IfOk, Some, None};
ghost use Rattle.plain_audit.specs.plain_state.Steps.{Does};
ghost use Rattle.script_lines.specs.declared.command.Command.TheVariants as command;
ghost use Rattle.script_desk.specs.declared.handle.Handle.{Handle as Bound};
ghost use Rattle.script_desk.specs.Desks.{bound};
ghost use Rattle.script_desk.specs.Effects.{Gives, Acts};
ghost use Rattle.script_desk.specs.Handles.{is_strong, is_weak, is_any};
ghost use Rattle.script_desk.specs.Holding.{giving};
ghost use Rattle.script_desk.specs.Places.{IsBoundTo};

use crate::binding::{bind, give_up};
use crate::desk::Desk;
use crate::handle::Handle;
use crate::said::Said;
use plain_settling::{Hand, WeakHand};
use script_lines::{Name, OutOfMemory};

impl Desk {
    /// One more strong reference, by another name.
    pub(crate) fn copy(&mut self, name: &Name, new: &Name) -> Result<Said, OutOfMemory>
        requires bound { IsBoundTo self.old.names name.now is_strong }
        requires unbound { bound self.old.names new.now ≡ None }
        ensures { IfOk result (λ answer.
            Acts self.old (command.Copy name.now new.now) answer self.new) }
    {
        let slot = self.strong_slot(name);
        let hand = self.heap.copy(&Hand::of(slot))?;
        bind(
            self.alloc,
            &mut self.heap,
            &mut self.names,
            new,
            Handle::Strong(hand),
        )?;
        Ok(Said::Nothing)
    }

    /// A weak reference to the object of a strong one.
    pub(crate) fn weaken(&mut self, name: &Name, new: &Name) -> Result<Said, OutOfMemory>
        requires bound { IsBoundTo self.old.names name.now is_strong }
        requires unbound { bound self.old.names new.now ≡ None }
        ensures { IfOk result (λ answer.
            Acts self.old (command.Weaken name.now new.now) answer self.new) }
    {
        let slot = self.strong_slot(name);
        let hand = self.heap.weaken(&Hand::of(slot))?;
        bind(
            self.alloc,
            &mut self.heap,
            &mut self.names,
            new,
            Handle::Weak(hand),
        )?;
        Ok(Said::Nothing)
    }

    /// One more weak reference, by another name.
    pub(crate) fn copy_weak(&mut self, name: &Name, new: &Name) -> Result<Said, OutOfMemory>
        requires bound { IsBoundTo self.old.names name.now is_weak }
        requires unbound { bound self.old.names new.now ≡ None }
        ensures { IfOk result (λ answer.
            Acts self.old (command.CopyWeak name.now new.now) answer self.new) }
    {
        let slot = self.weak_slot(name);
        let hand = self.heap.copy_weak(&WeakHand::of(slot))?;
        bind(
            self.alloc,
            &mut self.heap,
            &mut self.names,
            new,
            Handle::Weak(hand),
        )?;
        Ok(Said::Nothing)
    }

    /// A strong reference to the object of a weak one, if it hasn't ended.
    pub(crate) fn upgrade(&mut self, name: &Name, new: &Name) -> Result<Said, OutOfMemory>
        requires bound { IsBoundTo self.old.names name.now is_weak }
        requires unbound { bound self.old.names new.now ≡ None }
        ensures { IfOk result (λ answer.
            Acts self.old (command.Upgrade name.now new.now) answer self.new) }
    {
        let slot = self.weak_slot(name);
        let Some(hand) = self.heap.upgrade(&WeakHand::of(slot))? else {
            return Ok(Said::Dead);
        };
        bind(
            self.alloc,
            &mut self.heap,
            &mut self.names,
            new,
            Handle::Strong(hand),
        )?;
        Ok(Said::Up)
    }

    /// What the name is bound to is given up, and the name isn't bound any more.
    pub(crate) fn give(&mut self, name: &Name)
        requires { IsBoundTo self.old.names name.now is_any }
        ensures { (h : Bound) × (bound self.old.names name.now ≡ Some h)
            × Does self.old.plain 0 (giving h) 0 self.new.plain × Gives self.old name.now self.new }
    {
        match self.names.unbind(name) {
            Some(handle) => give_up(&mut self.heap, handle),
            None => unreachable!(),
        }
    }
}
