//! What a name of a script is bound to.
use plain_settling::{Hand, SlotId, SnapHand, WeakHand};

/// A strong reference, a weak one, or a snapshot.
#[derive(Debug, Drop)]
pub enum Handle {
    Strong(Hand),
    Weak(WeakHand),
    Snapshot(SnapHand),
}

impl Handle {
    ghost use Rattle.std.specs.Prelude.{◌≡◌, IsTrue, ◌↔◌, true};
    ghost use Rattle.script_desk.specs.Handles.{slot_of, is_strong, is_weak, is_snapshot, is_firm};

    /// The slot of the object.
    pub fn slot(&self) -> SlotId
        ensures { result ≡ slot_of self.now }
    {
        match self {
            Handle::Strong(hand) => hand.slot(),
            Handle::Weak(hand) => hand.slot(),
            Handle::Snapshot(hand) => hand.slot(),
        }
    }

    pub fn is_strong(&self) -> bool
        ensures { result ≡ is_strong self.now }
    {
        matches!(self, Handle::Strong(_))
    }

    pub fn is_weak(&self) -> bool
        ensures { result ≡ is_weak self.now }
    {
        matches!(self, Handle::Weak(_))
    }

    pub fn is_snapshot(&self) -> bool
        ensures { result ≡ is_snapshot self.now }
    {
        matches!(self, Handle::Snapshot(_))
    }

    /// Whether it keeps its object alive: a weak one doesn't.
    pub fn is_firm(&self) -> bool
        ensures { result ≡ is_firm self.now }
    {
        !self.is_weak()
    }
}
