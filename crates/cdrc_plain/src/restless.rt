//! Where a heap may be restless.
ghost use Rattle.std.specs.Prelude.{◌≡◌};
ghost use Rattle.cdrc_plain.specs.Watching.{also};

use plain_protocol::SlotId;

/// Where a drop may have left a slot without references since the heap settled last.
#[derive(Clone, Copy, PartialEq, Eq, Debug, Drop)]
pub(crate) enum Restless {
    Nowhere,
    At(SlotId),
    Anywhere,
}

impl Restless {
    /// With one slot more.
    pub(crate) fn also(self, slot: SlotId) -> Restless
        ensures { result ≡ also self slot }
    {
        match self {
            Restless::Nowhere => Restless::At(slot),
            Restless::At(first) if first.0 == slot.0 => self,
            Restless::At(_) | Restless::Anywhere => Restless::Anywhere,
        }
    }
}
