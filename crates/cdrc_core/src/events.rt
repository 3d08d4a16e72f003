//! One event: whether it is enabled, and what it does.
ghost use Rattle.std.specs.Prelude.{ℕ, ◌≡◌, ◌↔◌, ◌<◌, IsTrue, IfOk, OnOk, OnErr, Err, length};
ghost use Rattle.core_law.specs.core_events.declared.act.Act.TheVariants as act;
ghost use Rattle.core_law.specs.core_events.Steps.{May};
ghost use Rattle.core_law.specs.core_events.Runs.{Enabled, RestMay, after, outcome_of, view_at};
ghost use Rattle.cdrc_core.specs.Kept.{Kept};
ghost use Rattle.cdrc_core.specs.declared.errors.StepError.TheVariants.{NotEnabled, OutOfMemory};

use crate::errors::StepError;
use crate::table::Table;
use crate::words::next_word;
use core_law::Event;
use core_views::{Act, OutOfMemory as NoMemory, Outcome};

impl Table {
    /// Whether the part of an event's condition holds that its seat's own view doesn't tell.
    #[tactic(auto, using(crate::proofs::InRange::destroy_there, crate::proofs::Stays::rest_other))]
    fn rest_may(&self, event: &Event) -> bool
        requires kept { Kept self.now.shape self.now.core }
        requires there { event.now.seat < length self.now.core.views }
        requires may { May self.now.shape event.now.act (view_at self.now.core event.now.seat) }
        ensures { IsTrue result ↔ RestMay self.now.shape self.now.core event.now.act }
    {
        match event.act {
            Act::Destroy(slot) => self.has_null_fields(slot),
            Act::Leave(leaver) => self.seats[leaver as usize].can_leave(),
            _ => true,
        }
    }

    /// Whether the event is enabled.
    pub fn is_enabled(&self, event: &Event) -> bool
        requires { Kept self.now.shape self.now.core }
        ensures { IsTrue result
            ↔ Enabled self.now.shape self.now.core event.now.seat event.now.act }
    {
        let seat = event.seat as usize;
        seat < self.seats.len()
            && self.seats[seat].may(&self.shape, &event.act)
            && self.rest_may(event)
    }

    /// Makes an event that is no leave: it changes one word and one seat. After an error nothing
    /// has changed.
    #[tactic(auto, using(crate::proofs::InRange::in_range, core_law::proofs::Trails::views_plain))]
    fn make(&mut self, event: &Event) -> Result<Outcome, NoMemory>
        requires kept { Kept self.old.shape self.old.core }
        requires enabled { Enabled self.old.shape self.old.core event.now.seat event.now.act }
        requires stays { (j : ℕ) → event.now.act ≡ act.Leave j → ⊥ }
        ensures told { IfOk result (λ o. o ≡ outcome_of self.old.shape self.old.core event.now) }
        ensures ok { OnOk result (self.new ≡ record self.old {
          core = after self.old.shape self.old.core event.now.seat event.now.act;
        }) }
        ensures err { OnErr result (self.new ≡ self.old) }
    {
        let seat = event.seat as usize;
        let at = self.seats[seat].place(&self.shape, &event.act);
        let word = self.words[at];
        let next = next_word(&event.act, &self.seats[seat], word);
        let outcome = self.seats[seat].moves(&self.shape, &event.act, word)?;
        self.words[at] = next;
        Ok(outcome)
    }

    /// The first seat takes over what another one has. After an error nothing has changed.
    fn leave(&mut self, leaver: u32) -> Result<(), NoMemory>
        requires kept { Kept self.old.shape self.old.core }
        requires enabled { Enabled self.old.shape self.old.core 0 (act.Leave leaver) }
        ensures ok { OnOk result (self.new ≡ record self.old {
          core = after self.old.shape self.old.core 0 (act.Leave leaver);
        }) }
        ensures err { OnErr result (self.new ≡ self.old) }
    {
        let (front, back) = self.seats.split_at_mut(leaver as usize);
        front[0].take_over(&mut back[0])
    }

    /// Makes an event, if it is enabled. After an error nothing has changed.
    pub fn step(&mut self, event: &Event) -> Result<Outcome, StepError>
        requires { Kept self.old.shape self.old.core }
        ensures enabled { OnOk result
            (Enabled self.old.shape self.old.core event.now.seat event.now.act) }
        ensures told { IfOk result (λ o. o ≡ outcome_of self.old.shape self.old.core event.now) }
        ensures ok { OnOk result (self.new ≡ record self.old {
          core = after self.old.shape self.old.core event.now.seat event.now.act;
        }) }
        ensures refused { (result ≡ Err NotEnabled)
            ↔ (Enabled self.old.shape self.old.core event.now.seat event.now.act → ⊥) }
        ensures memory { result ≡ Err OutOfMemory
            → Enabled self.old.shape self.old.core event.now.seat event.now.act }
        ensures err { OnErr result (self.new ≡ self.old) }
    {
        if !self.is_enabled(event) {
            return Err(StepError::NotEnabled);
        }
        if let Act::Leave(leaver) = event.act {
            self.leave(leaver)?;
            return Ok(Outcome::Plain);
        }
        Ok(self.make(event)?)
    }
}
