//! References and tickets that a seat gains, and references that it gives up.
ghost use Rattle.std.specs.Prelude.{◌≡◌, ◌<◌, ◌+◌, ◌++◌, ◌∷◌, [], nat_lt, IfOk, OnOk, OnErr, Some, if◌then◌else◌};
ghost use Rattle.core_functions.specs.plain_state.declared.slot.Kind.TheVariants.{Weak};
ghost use Rattle.core_functions.specs.core_events.declared.outcome.Outcome.TheVariants as outcome;
ghost use Rattle.core_functions.specs.counter_word.Words.{ZERO};
ghost use Rattle.core_functions.specs.core_events.Views.{without};
ghost use Rattle.core_functions.specs.core_events.Steps.{HasAdd, decremented, given_up, paid, paid_outcome, without_given};

use crate::holdings::Holdings;
use core_functions::{Kind, OutOfMemory, Outcome, SlotId, ZERO, take_first};

impl Holdings {
    /// One more strong reference, unless the zero flag stood. It uses an add in any case.
    pub(crate) fn add(&mut self, slot: SlotId, word: u64) -> Result<Outcome, OutOfMemory>
        requires { HasAdd self.old }
        ensures told { IfOk result (λ o. o
            ≡ (if nat_lt word ZERO then outcome.Up else outcome.Dead)) }
        ensures ok { OnOk result (self.new ≡ (if nat_lt word ZERO
            then record self.old { owned = self.old.owned ++ slot ∷ []; adds = self.old.adds + 1 }
            else record self.old { adds = self.old.adds + 1 })) }
        ensures err { OnErr result (self.new ≡ self.old) }
    {
        if word >= ZERO {
            self.adds += 1;
            return Ok(Outcome::Dead);
        }
        self.owned.reserve(1)?;
        self.owned.push_reserved(slot);
        self.adds += 1;
        Ok(Outcome::Up)
    }

    /// One owned reference of the kind less.
    pub(crate) fn lose(&mut self, kind: Kind, slot: SlotId, word: u64) -> Outcome
        ensures told { result ≡ decremented kind word }
        ensures changed { self.new
            ≡ given_up kind slot word (without_given kind (Some slot) self.old) }
    {
        self.give(kind, Some(slot));
        self.give_up(kind, slot, word)
    }

    /// Pays the first entry that is owed, if there is one.
    pub(crate) fn pay(&mut self, word: u64) -> Outcome
        ensures told { result ≡ paid_outcome word self.old.owed }
        ensures changed { self.new ≡ paid word self.old.owed self.old }
    {
        match self.owed.pop_front() {
            Some((kind, slot)) => self.give_up(kind, slot, word),
            None => Outcome::Left,
        }
    }

    /// One more weak reference.
    pub(crate) fn add_weak(&mut self, slot: SlotId) -> Result<Outcome, OutOfMemory>
        requires { HasAdd self.old }
        ensures told { IfOk result (λ o. o ≡ outcome.Plain) }
        ensures ok { OnOk result (self.new
            ≡ record self.old { weaks = self.old.weaks ++ slot ∷ []; adds = self.old.adds + 1 }) }
        ensures err { OnErr result (self.new ≡ self.old) }
    {
        self.weaks.reserve(1)?;
        self.weaks.push_reserved(slot);
        self.adds += 1;
        Ok(Outcome::Plain)
    }

    /// One slot less that waits to be destroyed: its own weak reference goes.
    pub(crate) fn destroy(&mut self, slot: SlotId, word: u64) -> Outcome
        ensures told { result ≡ decremented Weak word }
        ensures changed { self.new ≡ given_up Weak slot word (record self.old {
          dying = without slot self.old.dying;
          ripe = without slot self.old.ripe;
        }) }
    {
        take_first(&mut self.dying, slot);
        take_first(&mut self.ripe, slot);
        self.give_up(Kind::Weak, slot, word)
    }

    /// One ticket more, of this number. It uses an add.
    pub(crate) fn draw(&mut self, ticket: u64) -> Result<Outcome, OutOfMemory>
        requires { HasAdd self.old }
        ensures told { IfOk result (λ o. o ≡ outcome.Number ticket) }
        ensures ok { OnOk result (self.new ≡ record self.old {
          adds = self.old.adds + 1;
          tickets = self.old.tickets ++ ticket ∷ [];
        }) }
        ensures err { OnErr result (self.new ≡ self.old) }
    {
        self.tickets.reserve(1)?;
        self.tickets.push_reserved(ticket);
        self.adds += 1;
        Ok(Outcome::Number(ticket))
    }
}
