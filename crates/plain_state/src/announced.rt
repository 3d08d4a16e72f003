//! Announcements, as whoever splits a list of retired entries asks for them.
ghost use Rattle.std.specs.Prelude.{◌≡◌, ℕ};
ghost use Rattle.plain_state.specs.declared.slot.Kind.{Kind};
ghost use Rattle.plain_state.specs.declared.slot.SlotId.{SlotId};

use crate::slot::{Kind, SlotId};

/// A multiset of announcements.
pub trait Announced {
    ghost announced: { Self → Kind → SlotId → ℕ };

    /// How often the slot is announced under this kind.
    fn times(&self, kind: Kind, slot: SlotId) -> u32
        ensures { result ≡ announced self.now kind slot };
}
