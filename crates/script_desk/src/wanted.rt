//! Which handles a command takes.
use crate::handle::Handle;

/// The kind of handle that a name must be bound to.
#[derive(Clone, Copy, PartialEq, Eq, Debug, Drop)]
pub(crate) enum Wanted {
    Strong,
    Weak,
    Snapshot,
    /// A strong handle or a snapshot.
    Firm,
}

impl Wanted {
    ghost use Rattle.std.specs.Prelude.{◌≡◌};
    ghost use Rattle.script_desk.specs.Places.{admitted};

    /// Whether the handle is one.
    pub fn admits(self, handle: &Handle) -> bool
        ensures { result ≡ admitted self handle.now }
    {
        match self {
            Wanted::Strong => handle.is_strong(),
            Wanted::Weak => handle.is_weak(),
            Wanted::Snapshot => handle.is_snapshot(),
            Wanted::Firm => handle.is_firm(),
        }
    }
}
