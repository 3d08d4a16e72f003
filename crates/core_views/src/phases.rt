//! Phases that a seat goes into by the word that it found.
ghost use Rattle.std.specs.Prelude.{◌≡◌, ◌==◌, ◌++◌, ◌∷◌, [], OnOk, OnErr, if◌then◌else◌};
ghost use Rattle.core_functions.specs.core_events.declared.outcome.Outcome.TheVariants as outcome;
ghost use Rattle.core_functions.specs.core_events.declared.view.Phase.TheVariants as phase;
ghost use Rattle.core_functions.specs.counter_word.Words.{value};
ghost use Rattle.core_functions.specs.core_events.Steps.{decremented, given_up};

use crate::holdings::Holdings;
use core_functions::{Kind, OutOfMemory, Outcome, Phase, SlotId, given_up, value};

impl Holdings {
    /// Goes into a phase.
    pub(crate) fn enter(&mut self, phase: Phase) -> Outcome
        ensures told { result ≡ outcome.Plain }
        ensures changed { self.new ≡ record self.old { phase = phase } }
    {
        self.phase = phase;
        Outcome::Plain
    }

    /// After a decrement: the one that found 1 is to finish the object, or to give the slot back. No reference is of
    /// the kind `Disposal`.
    pub(crate) fn give_up(&mut self, kind: Kind, slot: SlotId, word: u64) -> Outcome
        ensures told { result ≡ decremented kind word }
        ensures changed { self.new ≡ given_up kind slot word self.old }
    {
        if kind == Kind::Disposal {
            return Outcome::Left;
        }
        let (phase, outcome) = given_up(kind, slot, word);
        self.phase = phase;
        outcome
    }

    /// Has ended the object of the slot.
    pub(crate) fn end(&mut self, slot: SlotId) -> Result<(), OutOfMemory>
        ensures ok { OnOk result (self.new
            ≡ record self.old { dying = self.old.dying ++ slot ∷ []; phase = phase.Idle }) }
        ensures err { OnErr result (self.new ≡ self.old) }
    {
        self.dying.reserve(1)?;
        self.dying.push_reserved(slot);
        self.phase = Phase::Idle;
        Ok(())
    }

    /// Has read the strong word of a slot.
    pub(crate) fn count(&mut self, slot: SlotId, word: u64) -> Outcome
        ensures told { result
            ≡ (if word == 0 then outcome.Again else outcome.Number (value word)) }
        ensures changed { self.new
            ≡ (if word == 0 then record self.old { phase = phase.Zero slot } else self.old) }
    {
        if word != 0 {
            return Outcome::Number(value(word));
        }
        self.phase = Phase::Zero(slot);
        Outcome::Again
    }

    /// Has set the flags of a strong word 0, or found that it isn't 0 any more.
    pub(crate) fn mark(&mut self, word: u64) -> Outcome
        ensures told { result ≡ outcome.Number (value word) }
        ensures changed { self.new ≡ record self.old { phase = phase.Idle } }
    {
        self.phase = Phase::Idle;
        Outcome::Number(value(word))
    }
}
