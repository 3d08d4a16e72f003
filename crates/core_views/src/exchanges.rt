//! Contents of places that a seat changes.
ghost use Rattle.std.specs.Prelude.{◌≡◌, ◌<◌, ◌^◌, ◌==◌, IfOk, OnOk, OnErr, if◌then◌else◌};
ghost use Rattle.core_functions.specs.core_events.declared.outcome.Outcome.TheVariants as outcome;
ghost use Rattle.core_functions.specs.plain_state.Steps.{word_of};
ghost use Rattle.core_functions.specs.core_events.Words.{slot_in};
ghost use Rattle.core_functions.specs.core_events.Steps.{exchanged, without_given};

use crate::holdings::Holdings;
use core_functions::{Kind, OutOfMemory, Outcome, SlotId, found_in, held_as, retire, take_first};

impl Holdings {
    /// The reference of this kind is no longer the seat's. No reference is of the kind `Disposal`.
    pub(crate) fn give(&mut self, kind: Kind, new: Option<SlotId>)
        ensures { self.new ≡ without_given kind new self.old }
    {
        match (kind, new) {
            (_, None) => {}
            (Kind::Strong, Some(slot)) => take_first(&mut self.owned, slot),
            (Kind::Weak, Some(slot)) => take_first(&mut self.weaks, slot),
            (Kind::Disposal, Some(_)) => {}
        }
    }

    /// Puts a new content into a place of this kind, and retires the old one.
    fn exchange(&mut self, kind: Kind, new: Option<SlotId>, word: u64) -> Result<(), OutOfMemory>
        requires { word < 2 ^ 32 }
        ensures ok { OnOk result (self.new ≡ exchanged kind new word self.old) }
        ensures err { OnErr result (self.new ≡ self.old) }
    {
        retire(&mut self.retired, kind, found_in(word))?;
        self.give(kind, new);
        Ok(())
    }

    /// Swaps the content of a place.
    pub(crate) fn swap(
        &mut self,
        kind: Kind,
        new: Option<SlotId>,
        word: u64,
    ) -> Result<Outcome, OutOfMemory>
        requires { word < 2 ^ 32 }
        ensures told { IfOk result (λ o. o ≡ outcome.Found (slot_in word)) }
        ensures ok { OnOk result (self.new ≡ exchanged kind new word self.old) }
        ensures err { OnErr result (self.new ≡ self.old) }
    {
        self.exchange(kind, new, word)?;
        Ok(Outcome::Found(found_in(word)))
    }

    /// Swaps the content of a place, if it was the expected one.
    pub(crate) fn cas(
        &mut self,
        kind: Kind,
        old: Option<SlotId>,
        new: Option<SlotId>,
        word: u64,
    ) -> Result<Outcome, OutOfMemory>
        requires { word < 2 ^ 32 }
        ensures told { IfOk result (λ o. o
            ≡ (if word == word_of old then outcome.Done else outcome.LostTo (slot_in word))) }
        ensures ok { OnOk result (self.new
            ≡ (if word == word_of old then exchanged kind new word self.old else self.old)) }
        ensures err { OnErr result (self.new ≡ self.old) }
    {
        if word != held_as(old) {
            return Ok(Outcome::LostTo(found_in(word)));
        }
        self.exchange(kind, new, word)?;
        Ok(Outcome::Done)
    }
}
