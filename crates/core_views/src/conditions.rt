//! What a seat may do, by what it has.
ghost use Rattle.std.specs.Prelude.{◌≡◌, ◌≢◌, ◌↔◌, ◌⊎◌, ◌+◌, ◌<◌, ◌≤◌, ◌^◌, ℕ, IsTrue, [], length};
ghost use Rattle.core_functions.specs.plain_state.Limits.{words_of_seat};
ghost use Rattle.core_functions.specs.plain_state.declared.slot.Kind.TheVariants.{Disposal};
ghost use Rattle.core_functions.specs.plain_state.declared.slot.SlotId.{SlotId};
ghost use Rattle.core_functions.specs.plain_state.Lists.{times};
ghost use Rattle.core_functions.specs.core_events.declared.act.Act.TheVariants as act;
ghost use Rattle.core_functions.specs.core_events.declared.view.Note.TheVariants as note;
ghost use Rattle.core_functions.specs.core_events.declared.view.Phase.TheVariants as phase;
ghost use Rattle.core_functions.specs.core_events.Views.{allowed_makes, note_of, CanReadFields, Holds, HoldsStrongly, IsOpen, IsReadable, IsRipeField};
ghost use Rattle.core_functions.specs.core_events.Steps.{IsIdle, HasAdd, HasMake, HasRoom, CanGive, IsContent, CanLeave, May};

use crate::holdings::Holdings;
use core_functions::{
    EventPlace, Kind, Note, Phase, Shape, SlotId, are_idle, grant_more, has_slot, has_snapshot,
    is_content, is_filling, kind_of,
};

impl Holdings {
    /// Whether the seat is there, and in the middle of nothing.
    pub(crate) fn is_idle(&self) -> bool
        ensures { IsTrue result ↔ IsIdle self.now }
    {
        matches!(self.phase, Phase::Idle) && !self.left
    }

    pub(crate) fn has_add(&self) -> bool
        ensures { IsTrue result ↔ HasAdd self.now }
    {
        self.adds < self.quota.adds
    }

    pub(crate) fn has_make(&self) -> bool
        ensures { IsTrue result ↔ HasMake self.now }
    {
        self.makes < self.quota.makes
            || grant_more(&self.grants, &self.tickets, self.makes - self.quota.makes)
    }

    /// Whether all makes that it may ever use up are few enough to be counted.
    pub(crate) fn has_few_makes(&self) -> bool
        ensures { IsTrue result ↔ (allowed_makes self.now < 2 ^ 64) }
    {
        !grant_more(&self.grants, &self.tickets, u64::MAX - self.quota.makes)
    }

    /// Whether what it has retired and owes is within its room.
    pub(crate) fn is_within_room(&self) -> bool
        ensures { IsTrue result
            ↔ (length self.now.retired + length self.now.owed ≤ self.now.room) }
    {
        self.retired.len() + self.owed.len() <= self.room as usize
    }

    pub(crate) fn has_room(&self) -> bool
        ensures { IsTrue result ↔ HasRoom self.now }
    {
        self.retired.len() + self.owed.len() < self.room as usize
    }

    /// Whether the slot is one that the seat may destroy.
    pub(crate) fn has_ripe(&self, slot: SlotId) -> bool
        ensures { IsTrue result ↔ (0 < times slot self.now.ripe) }
    {
        has_slot(&self.ripe, slot)
    }

    pub(crate) fn owes_nothing(&self) -> bool
        ensures { IsTrue result ↔ (self.now.owed ≡ []) }
    {
        self.owed.is_empty()
    }

    /// Whether the seat is in the middle of nothing, and owes nothing.
    fn is_settled(&self) -> bool
        ensures { IsTrue result ↔ (IsIdle self.now × (self.now.owed ≡ [])) }
    {
        self.is_idle() && self.owes_nothing()
    }

    /// Whether the seat owns the slot, or is under a snapshot of it.
    pub(crate) fn holds(&self, slot: SlotId) -> bool
        ensures { IsTrue result ↔ Holds self.now slot }
    {
        has_slot(&self.owned, slot)
            || has_slot(&self.weaks, slot)
            || has_snapshot(&self.notes, Kind::Strong, slot)
            || has_snapshot(&self.notes, Kind::Weak, slot)
            || has_snapshot(&self.notes, Kind::Disposal, slot)
    }

    /// The same, strongly.
    fn holds_strongly(&self, slot: SlotId) -> bool
        ensures { IsTrue result ↔ HoldsStrongly self.now slot }
    {
        has_slot(&self.owned, slot) || has_snapshot(&self.notes, Kind::Strong, slot)
    }

    /// The same, so that the object isn't destroyed meanwhile.
    fn can_read_fields(&self, slot: SlotId) -> bool
        ensures { IsTrue result ↔ CanReadFields self.now slot }
    {
        has_slot(&self.owned, slot)
            || has_snapshot(&self.notes, Kind::Strong, slot)
            || has_snapshot(&self.notes, Kind::Disposal, slot)
    }

    /// Whether a place is open to the seat.
    pub(crate) fn is_open(&self, shape: &Shape, place: EventPlace) -> bool
        ensures { IsTrue result ↔ IsOpen shape.now self.now place }
    {
        match place {
            EventPlace::Cell(cell) => cell < shape.cells,
            EventPlace::Field(slot, field) => field < 2 && self.holds_strongly(slot),
            EventPlace::WeakCell(cell) => cell < shape.weak_cells,
            EventPlace::WeakField(slot) => self.holds_strongly(slot),
        }
    }

    /// Whether the seat may read a place.
    pub(crate) fn is_readable(&self, shape: &Shape, place: EventPlace) -> bool
        ensures { IsTrue result ↔ IsReadable shape.now self.now place }
    {
        match place {
            EventPlace::Cell(cell) => cell < shape.cells,
            EventPlace::Field(slot, field) => field < 2 && self.can_read_fields(slot),
            EventPlace::WeakCell(cell) => cell < shape.weak_cells,
            EventPlace::WeakField(slot) => self.can_read_fields(slot),
        }
    }

    /// Whether a place is a field of a slot that the seat may destroy.
    fn is_ripe_field(&self, place: EventPlace) -> bool
        ensures { IsTrue result ↔ IsRipeField self.now place }
    {
        match place {
            EventPlace::Cell(_) | EventPlace::WeakCell(_) => false,
            EventPlace::Field(slot, field) => field < 2 && self.has_ripe(slot),
            EventPlace::WeakField(slot) => self.has_ripe(slot),
        }
    }

    /// Whether the seat has this content to give to a place of this kind.
    pub(crate) fn can_give(&self, kind: Kind, new: Option<SlotId>) -> bool
        ensures { IsTrue result ↔ CanGive kind new self.now }
    {
        match (kind, new) {
            (_, None) => true,
            (Kind::Strong, Some(slot)) => has_slot(&self.owned, slot),
            (Kind::Weak, Some(slot)) => has_slot(&self.weaks, slot),
            (Kind::Disposal, Some(_)) => false,
        }
    }

    /// Whether there is such an announcement word, and it stands for nothing.
    pub(crate) fn has_idle_note(&self, at: u32) -> bool
        ensures { IsTrue result ↔ ((at < words_of_seat) × (note_of self.now at ≡ note.Idle)) }
    {
        at < 4 && matches!(self.notes[at as usize], Note::Idle)
    }

    /// Whether there is such an announcement word, and it stands for something.
    pub(crate) fn has_busy_note(&self, at: u32) -> bool
        ensures { IsTrue result ↔ ((at < words_of_seat) × (note_of self.now at ≢ note.Idle)) }
    {
        at < 4 && !matches!(self.notes[at as usize], Note::Idle)
    }

    /// Whether a reference of this kind is announced there, and was not found yet.
    pub(crate) fn has_announced(&self, at: u32, kind: Kind) -> bool
        ensures { IsTrue result
            ↔ ((at < words_of_seat)
            × ((s : SlotId) × (note_of self.now at ≡ note.Announced kind s))) }
    {
        at < 4
            && match self.notes[at as usize] {
                Note::Announced(k, _) => k == kind,
                Note::Idle | Note::Valid(_, _) => false,
            }
    }

    /// Whether a slot that the seat holds is announced for disposal there, and was not found alive yet.
    fn has_announced_disposal(&self, at: u32) -> bool
        ensures { IsTrue result ↔ ((at < words_of_seat)
            × ((s : SlotId) × (note_of self.now at ≡ note.Announced Disposal s)
            × Holds self.now s)) }
    {
        at < 4
            && match self.notes[at as usize] {
                Note::Announced(kind, slot) => kind == Kind::Disposal && self.holds(slot),
                Note::Idle | Note::Valid(_, _) => false,
            }
    }

    /// Whether the seat may ask if what is announced there for disposal is alive.
    pub(crate) fn can_revive(&self, shape: &Shape, at: u32) -> bool
        ensures { IsTrue result ↔ May shape.now (act.Alive at) self.now }
    {
        self.is_idle() && self.has_announced_disposal(at)
    }

    /// Whether the seat may put this content into the place: into a place that is open to it, or
    /// null into a field of a slot that it may destroy.
    pub(crate) fn can_put(&self, shape: &Shape, place: EventPlace, new: Option<SlotId>) -> bool
        ensures { IsTrue result ↔ May shape.now (act.Swap place new) self.now }
    {
        self.is_idle()
            && self.has_room()
            && (self.is_open(shape, place) && self.can_give(kind_of(place), new)
                || self.is_ripe_field(place) && new.is_none())
    }

    /// Whether the seat may begin a scan, or is in the middle of one.
    pub(crate) fn can_scan(&self, shape: &Shape) -> bool
        ensures { IsTrue result ↔ May shape.now act.Scan self.now }
    {
        self.is_settled() || matches!(self.phase, Phase::Scan)
    }

    /// Whether all announcement words stand for nothing.
    fn announces_nothing(&self) -> bool
        ensures { IsTrue result ↔ ((j : ℕ) → note_of self.now j ≡ note.Idle) }
    {
        are_idle(&self.notes)
    }

    /// Whether the seat has nothing that only itself could give up.
    pub(crate) fn can_leave(&self) -> bool
        ensures { IsTrue result ↔ CanLeave self.now }
    {
        self.is_settled() && self.announces_nothing()
    }
}

impl Holdings {
    /// Whether the seat may try a place.
    pub(crate) fn can_try(
        &self,
        shape: &Shape,
        place: EventPlace,
        old: Option<SlotId>,
        new: Option<SlotId>,
    ) -> bool
        ensures { IsTrue result ↔ May shape.now (act.Cas place old new) self.now }
    {
        self.is_idle()
            && self.has_room()
            && self.is_open(shape, place)
            && self.can_give(kind_of(place), new)
            && is_content(shape, old)
    }

    /// Whether the seat may try to claim the slot.
    pub(crate) fn can_claim(&self, shape: &Shape, slot: SlotId) -> bool
        ensures { IsTrue result ↔ May shape.now (act.Claim slot) self.now }
    {
        self.is_idle() && slot.0 < shape.slots && self.has_make() && self.has_add()
    }

    /// Whether the seat may write this payload word. Any word of 64 bits will do.
    pub(crate) fn can_fill(&self, shape: &Shape, at: u32, word: u64) -> bool
        ensures { IsTrue result ↔ May shape.now (act.Fill at word) self.now }
    {
        is_filling(self.phase) && at < 16
    }

    /// Whether the seat may read a payload word of the slot.
    pub(crate) fn can_see(&self, slot: SlotId) -> bool
        ensures { IsTrue result
            ↔ (IsIdle self.now × (Holds self.now slot ⊎ (0 < times slot self.now.dying))) }
    {
        self.is_idle() && (self.holds(slot) || has_slot(&self.dying, slot))
    }

    /// Whether the seat may take over what the other one has, as far as its own things tell.
    pub(crate) fn can_let_leave(&self, shape: &Shape, other: u32) -> bool
        ensures { IsTrue result ↔ May shape.now (act.Leave other) self.now }
    {
        self.seat == 0 && other != 0 && other < shape.seats && self.can_leave()
    }
}
