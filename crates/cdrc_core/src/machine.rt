//! The core: its invariant, and its public calls.
ghost use Rattle.std.specs.Prelude.{◌≡◌, ◌==◌, ◌↔◌, ◌<◌, [], IsTrue, IfOk, OnOk, OnErr, Err};
ghost use Rattle.core_law.specs.core_events.declared.shape.ShapeField.{ShapeField};
ghost use Rattle.core_law.specs.core_events.Counts.{free_bit, strong, weak};
ghost use Rattle.core_law.specs.core_events.Good.{Good};
ghost use Rattle.core_law.specs.core_events.Runs.{AreTerms, Enabled, IsShape, after, outcome_of, start, view_at};
ghost use Rattle.core_law.specs.Sound.{Sound};
ghost use Rattle.core_views.specs.core_functions.Fields.{IsFirstBad};
ghost use Rattle.cdrc_core.specs.declared.errors.StartError.TheVariants.{BadShape};
ghost use Rattle.cdrc_core.specs.declared.errors.StepError.TheVariants.{NotEnabled, OutOfMemory};
ghost use Rattle.cdrc_core.specs.State.{terms};

use crate::errors::{StartError, StepError};
use crate::table::Table;
use core_law::Event;
use core_views::{Outcome, OwnView, Quota, Shape, SlotId, first_bad};
use std::alloc::Global;
use std::marker::Model;

/// The core of a domain: all its words, and what each seat knows. Its value, in contracts, is the
/// shape and the state that `core_events` defines. The invariant of `core_law` holds of it.
#[derive(Drop)]
pub struct Core {
    pub(crate) table: Table,
}

impl Model for Core {
    ghost use Rattle.cdrc_core.specs.Kept.{Kept};
    ghost use Rattle.cdrc_core.specs.State.{State};

    ghost Value = { State };

    ghost view = { λ c. c.table };

    ghost invariant = { λ c. Kept c.table.shape c.table.core };
}

impl Core {
    /// `start_granted`, where tickets grant nothing.
    pub fn start(alloc: Global, shape: Shape, quotas: &[Quota]) -> Result<Core, StartError>
        ensures ok { IfOk result (λ c. c ≡ record {
          shape = shape;
          core = start shape (terms quotas.now []);
        }) }
        ensures ranges { OnOk result
            (IsShape shape × AreTerms shape (terms quotas.now [])) }
        ensures bad { (f : ShapeField) → (result ≡ Err (BadShape f))
            ↔ IsFirstBad shape (terms quotas.now []) f }
    {
        Core::start_granted(alloc, shape, quotas, &[])
    }

    /// A core in which nothing has happened, with a seat for each quota. Who draws ticket t has `grants[t]` makes
    /// more, or none where there is no such grant.
    ///
    /// `BadShape` names the first field, in the order of `ShapeField`, that is out of its range:
    /// Seats 1 to 32, Slots 1 to 4,194,304, Cells 0 to 65,536, WeakCells 0 to 4,194,304, Batch 1 to
    /// 1,024; Quotas are one for each seat, and no entry is above 2^40, nor is the sum of the grants.
    /// It takes 8 bytes for each word: 21 for each slot, one for 64 slots, one for each cell, four
    /// for each seat, and two more. Each seat has the grants.
    pub fn start_granted(
        alloc: Global,
        shape: Shape,
        quotas: &[Quota],
        grants: &[u64],
    ) -> Result<Core, StartError>
        ensures ok { IfOk result (λ c. c ≡ record {
          shape = shape;
          core = start shape (terms quotas.now grants.now);
        }) }
        ensures ranges { OnOk result (IsShape shape
            × AreTerms shape (terms quotas.now grants.now)) }
        ensures bad { (f : ShapeField) → (result ≡ Err (BadShape f))
            ↔ IsFirstBad shape (terms quotas.now grants.now) f }
    {
        if let Some(field) = first_bad(&shape, quotas, grants) {
            return Err(StartError::BadShape(field));
        }
        let table = Table::first(alloc, shape, quotas, grants)?;
        Ok(Core { table })
    }

    /// Makes one event of one seat, and answers what the event answers. Refused as `NotEnabled`
    /// exactly where the event isn't enabled, and as `OutOfMemory` where there was no memory for
    /// what the seat keeps. A refusal changes nothing. It looks through the lists of the seat.
    #[tactic(auto, using(crate::proofs::Starting::step_kept))]
    pub fn step(&mut self, event: &Event) -> Result<Outcome, StepError>
        ensures enabled { OnOk result
            (Enabled self.old.shape self.old.core event.now.seat event.now.act) }
        ensures told { IfOk result (λ o. o ≡ outcome_of self.old.shape self.old.core event.now) }
        ensures ok { OnOk result (self.new ≡ record self.old {
          core = after self.old.shape self.old.core event.now.seat event.now.act;
        }) }
        ensures refused { (result ≡ Err NotEnabled)
            ↔ (Enabled self.old.shape self.old.core event.now.seat event.now.act → ⊥) }
        ensures memory { result ≡ Err OutOfMemory
            → Enabled self.old.shape self.old.core event.now.seat event.now.act }
        ensures err { OnErr result (self.new ≡ self.old) }
    {
        self.table.step(event)
    }

    /// Whether `step` would make the event, but for memory.
    pub fn is_enabled(&self, event: &Event) -> bool
        ensures { IsTrue result
            ↔ Enabled self.now.shape self.now.core event.now.seat event.now.act }
    {
        self.table.is_enabled(event)
    }

    /// The strong word of a slot: its count, or its flags.
    pub fn strong_word(&self, slot: SlotId) -> u64
        requires { slot.0 < self.now.shape.slots }
        ensures { result ≡ strong self.now.shape self.now.core slot }
    {
        self.table.strong_word(slot)
    }

    /// The weak word of a slot: its count.
    pub fn weak_word(&self, slot: SlotId) -> u64
        requires { slot.0 < self.now.shape.slots }
        ensures { result ≡ weak self.now.shape self.now.core slot }
    {
        self.table.weak_word(slot)
    }

    /// Whether a slot is free: its bit is set.
    pub fn is_free(&self, slot: SlotId) -> bool
        requires { slot.0 < self.now.shape.slots }
        ensures { result ≡ (free_bit self.now.shape self.now.core slot == 1) }
    {
        self.table.is_free(slot)
    }

    /// What one seat knows.
    pub fn seat(&self, seat: u32) -> &OwnView
        requires { seat < self.now.shape.seats }
        ensures { result.now ≡ view_at self.now.core seat }
    {
        self.table.seat(seat)
    }

    /// What holds of every core, whatever was done with it: the invariant of `core_events`, and the same in the form
    /// from which `core_law` and `core_promises` conclude. It does nothing.
    pub fn law(&self)
        ensures good { Good self.now.shape self.now.core }
        ensures sound { Sound self.now.shape self.now.core }
    {
        let _table = &self.table;
    }

    /// How large the core is.
    pub fn shape(&self) -> Shape
        ensures { result ≡ self.now.shape }
    {
        self.table.shape()
    }
}
