//! A slot's object ends, and a slot is claimed, armed and made.
ghost use Rattle.std.specs.Prelude.{◌≡◌, ◌==◌, ◌<◌, ◌+◌, ◌^◌, ◌++◌, ◌∷◌, [], IfOk, OnOk, OnErr, if◌then◌else◌};
ghost use Rattle.core_functions.specs.plain_state.declared.slot.SlotId.{SlotId};
ghost use Rattle.core_functions.specs.core_events.declared.outcome.Outcome.TheVariants as outcome;
ghost use Rattle.core_functions.specs.core_events.declared.view.Phase.TheVariants as phase;
ghost use Rattle.core_functions.specs.core_events.Words.{bit_in};
ghost use Rattle.core_functions.specs.counter_word.Words.{has_help};
ghost use Rattle.core_functions.specs.core_events.Views.{about, allowed_makes, alone, slot_of};
ghost use Rattle.core_functions.specs.core_events.Steps.{HasAdd, HasMake, ended};

use crate::holdings::Holdings;
use core_functions::{OutOfMemory, Outcome, Phase, SlotId, has_bit, has_help};

impl Holdings {
    /// Ends the object whose strong word it took to 0, unless somebody was quicker.
    pub(crate) fn finish(&mut self, word: u64) -> Result<Outcome, OutOfMemory>
        requires { (s : SlotId) × (self.old.phase ≡ phase.Finish s) }
        ensures told { IfOk result (λ o. o ≡ (if word == 0 then outcome.Ended
            else if has_help word then outcome.Help else outcome.Lost)) }
        ensures ok { OnOk result (self.new ≡ ended (word == 0) (slot_of self.old.phase)
            (if has_help word then about phase.Help (slot_of self.old.phase) else phase.Idle)
            self.old) }
        ensures err { OnErr result (self.new ≡ self.old) }
    {
        let Phase::Finish(slot) = self.phase else {
            unreachable!()
        };
        if word == 0 {
            self.end(slot)?;
            return Ok(Outcome::Ended);
        }
        if has_help(word) {
            let _ = self.enter(Phase::Help(slot));
            return Ok(Outcome::Help);
        }
        let _ = self.enter(Phase::Idle);
        Ok(Outcome::Lost)
    }

    /// Ends the object if the help flag stood.
    pub(crate) fn take(&mut self, word: u64) -> Result<Outcome, OutOfMemory>
        requires { (s : SlotId) × (self.old.phase ≡ phase.Help s) }
        ensures told { IfOk result (λ o. o
            ≡ (if has_help word then outcome.Ended else outcome.NoHelp)) }
        ensures ok { OnOk result (self.new
            ≡ ended (has_help word) (slot_of self.old.phase) phase.Idle self.old) }
        ensures err { OnErr result (self.new ≡ self.old) }
    {
        if has_help(word) {
            let Phase::Help(slot) = self.phase else {
                unreachable!()
            };
            self.end(slot)?;
            return Ok(Outcome::Ended);
        }
        let _ = self.enter(Phase::Idle);
        Ok(Outcome::NoHelp)
    }

    /// Has claimed the slot, if its bit was set in the word.
    pub(crate) fn claim(&mut self, slot: SlotId, word: u64) -> Outcome
        requires may { HasMake self.old }
        requires few { allowed_makes self.old < 2 ^ 64 }
        ensures told { result
            ≡ (if bit_in slot word == 1 then outcome.Claimed else outcome.Taken word) }
        ensures changed { self.new ≡ (if bit_in slot word == 1
            then record self.old { makes = self.old.makes + 1; phase = phase.Bare slot }
            else self.old) }
    {
        if !has_bit(word, slot) {
            return Outcome::Taken(word);
        }
        self.makes += 1;
        self.phase = Phase::Bare(slot);
        Outcome::Claimed
    }

    /// Has given the claimed slot its own weak reference.
    pub(crate) fn arm(&mut self) -> Outcome
        requires { (s : SlotId) × (self.old.phase ≡ phase.Bare s) }
        ensures told { result ≡ outcome.Plain }
        ensures changed { self.new
            ≡ record self.old { phase = about phase.Blank (slot_of self.old.phase) } }
    {
        let Phase::Bare(slot) = self.phase else {
            unreachable!()
        };
        self.enter(Phase::Blank(slot))
    }

    /// Makes the claimed slot live: its first strong reference is the seat's.
    pub(crate) fn start(&mut self) -> Result<Outcome, OutOfMemory>
        requires add { HasAdd self.old }
        requires filled { (s : SlotId) × (self.old.phase ≡ phase.Blank s) }
        ensures told { IfOk result (λ o. o ≡ outcome.Plain) }
        ensures ok { OnOk result (self.new ≡ record self.old {
          owned = self.old.owned ++ alone (slot_of self.old.phase);
          made = self.old.made ++ alone (slot_of self.old.phase);
          adds = self.old.adds + 1;
          phase = phase.Idle;
        }) }
        ensures err { OnErr result (self.new ≡ self.old) }
    {
        let Phase::Blank(slot) = self.phase else {
            unreachable!()
        };
        self.owned.reserve(1)?;
        self.made.reserve(1)?;
        self.owned.push_reserved(slot);
        self.made.push_reserved(slot);
        self.adds += 1;
        self.phase = Phase::Idle;
        Ok(Outcome::Plain)
    }
}
