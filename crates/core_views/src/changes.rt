//! What each act answers and changes.
ghost use Rattle.std.specs.Prelude.{◌≡◌, IfOk, OnErr};
ghost use Rattle.core_functions.specs.core_events.Steps.{May, answer, changed};
ghost use Rattle.core_views.specs.Fits.{IsFit, IsWordFor};

use crate::holdings::Holdings;
use core_functions::{Act, Kind, Note, OutOfMemory, Outcome, Phase, Shape, found_in, kind_of};

impl Holdings {
    /// Makes the act, which finds the word.
    pub(crate) fn change(
        &mut self,
        shape: &Shape,
        act: &Act,
        word: u64,
    ) -> Result<Outcome, OutOfMemory>
        requires may { May shape.now act.now self.old }
        requires fit { IsFit self.old }
        requires content { IsWordFor shape.now act.now word }
        ensures told { IfOk result (λ o. o ≡ answer shape.now act.now word self.old) }
        ensures ok { IfOk result (λ _. self.new ≡ changed shape.now act.now word self.old) }
        ensures err { OnErr result (self.new ≡ self.old) }
    {
        // so that the number of a slot that a place holds fits its type
        let _slots = shape.slots;
        match *act {
            Act::Add(slot) => self.add(slot, word),
            Act::Drop(slot) => Ok(self.lose(Kind::Strong, slot, word)),
            Act::Pay => Ok(self.pay(word)),
            Act::Finish => self.finish(word),
            Act::Take => self.take(word),
            Act::Count(slot) => Ok(self.count(slot, word)),
            Act::Mark => Ok(self.mark(word)),
            Act::Announce(at, kind, slot) => Ok(self.set_note(at, Note::Announced(kind, slot))),
            Act::Release(at) => Ok(self.set_note(at, Note::Idle)),
            Act::Look(_) => Ok(Outcome::Found(found_in(word))),
            Act::Check(at, _) => Ok(self.check(at, word)),
            Act::Alive(at) => Ok(self.revive(at, word)),
            Act::Scan => self.scan(shape, word),
            Act::Swap(place, new) => self.swap(kind_of(place), new, word),
            Act::Cas(place, old, new) => self.cas(kind_of(place), old, new, word),
            Act::Claim(slot) => Ok(self.claim(slot, word)),
            Act::Arm => Ok(self.arm()),
            Act::Start => self.start(),
            Act::Free => Ok(self.enter(Phase::Idle)),
            Act::Ticket => self.draw(word),
            Act::Wadd(slot) => self.add_weak(slot),
            Act::Wdrop(slot) => Ok(self.lose(Kind::Weak, slot, word)),
            Act::Destroy(slot) => Ok(self.destroy(slot, word)),
            Act::See(_, _) | Act::Wcount(_) => Ok(Outcome::Word(word)),
            Act::Fill(_, _) | Act::Leave(_) => Ok(Outcome::Plain),
        }
    }
}
