//! All words and all seats, and one event of them.
ghost use Rattle.std.specs.Prelude.{◌≡◌, ◌==◌, ◌↔◌, ◌<◌, IsTrue, IfOk};
ghost use Rattle.core_law.specs.core_events.Counts.{free_bit, strong, weak};
ghost use Rattle.core_law.specs.core_events.Runs.{AreTerms, HasNullFields, IsShape, start, view_at};
ghost use Rattle.cdrc_core.specs.Kept.{Kept};
ghost use Rattle.cdrc_core.specs.State.{State, terms};

use crate::seats::first_seats;
use core_views::{
    OutOfMemory, OwnView, Quota, Shape, SlotId, bits_index, first_words, has_bit, slot_index,
};
use std::alloc::Global;
use std::marker::Model;

/// The words and the seats. What holds of them is said of `Core`.
#[derive(Drop)]
pub struct Table {
    pub(crate) shape: Shape,
    pub(crate) words: Vec<u64>,
    pub(crate) seats: Vec<OwnView>,
}

impl Model for Table {
    ghost Value = { State };

    ghost view = { λ t. record {
      shape = t.shape;
      core = record { words = t.words.items; views = t.seats.items };
    } };
}

impl Table {
    /// Nothing has happened.
    pub fn first(
        alloc: Global,
        shape: Shape,
        quotas: &[Quota],
        grants: &[u64],
    ) -> Result<Table, OutOfMemory>
        requires sizes { IsShape shape }
        requires terms { AreTerms shape (terms quotas.now grants.now) }
        ensures { IfOk result (λ t. t ≡ record {
          shape = shape;
          core = start shape (terms quotas.now grants.now);
        }) }
    {
        let words = first_words(alloc, &shape)?;
        let seats = first_seats(alloc, shape, quotas, grants)?;
        Ok(Table {
            shape,
            words,
            seats,
        })
    }

    /// How large the core is.
    pub fn shape(&self) -> Shape
        ensures { result ≡ self.now.shape }
    {
        self.shape
    }

    /// The strong word of a slot.
    pub fn strong_word(&self, slot: SlotId) -> u64
        requires there { slot.0 < self.now.shape.slots }
        requires kept { Kept self.now.shape self.now.core }
        ensures { result ≡ strong self.now.shape self.now.core slot }
    {
        self.words[slot_index(&self.shape, slot)]
    }

    /// The weak word of a slot.
    pub fn weak_word(&self, slot: SlotId) -> u64
        requires there { slot.0 < self.now.shape.slots }
        requires kept { Kept self.now.shape self.now.core }
        ensures { result ≡ weak self.now.shape self.now.core slot }
    {
        self.words[slot_index(&self.shape, slot) + 1]
    }

    /// Whether the bit of a slot is set.
    pub fn is_free(&self, slot: SlotId) -> bool
        requires there { slot.0 < self.now.shape.slots }
        requires kept { Kept self.now.shape self.now.core }
        ensures { result ≡ (free_bit self.now.shape self.now.core slot == 1) }
    {
        has_bit(self.words[bits_index(&self.shape, slot)], slot)
    }

    /// What one seat knows.
    pub fn seat(&self, seat: u32) -> &OwnView
        requires there { seat < self.now.shape.seats }
        requires kept { Kept self.now.shape self.now.core }
        ensures { result.now ≡ view_at self.now.core seat }
    {
        &self.seats[seat as usize]
    }

    /// Whether the three fields of a slot are null.
    pub fn has_null_fields(&self, slot: SlotId) -> bool
        requires there { slot.0 < self.now.shape.slots }
        requires kept { Kept self.now.shape self.now.core }
        ensures { IsTrue result ↔ HasNullFields self.now.shape self.now.core.words slot }
    {
        let first = slot_index(&self.shape, slot) + 2;
        self.words[first] == 0 && self.words[first + 1] == 0 && self.words[first + 2] == 0
    }
}
