//! What a collect does and answers.

/// How the payment for one entry that is owed went.
#[derive(Clone, Copy, PartialEq, Eq, Debug, Drop)]
pub enum Payment {
    /// References are left.
    Left,
    /// It was the last strong reference, and the seat ended the object.
    Ended,
    /// It was, and somebody was quicker: another seat ended the object, or added.
    Lost,
    /// It was, the help flag stood, and the seat took it and so ended the object.
    Helped,
    /// It was, and the help flag was gone when the seat came to take it.
    NoHelp,
    /// It was the last weak reference, and the seat gave the slot back.
    Freed,
}

impl Payment {
    ghost use Rattle.std.specs.Prelude.{◌≡◌};
    ghost use Rattle.acquire_retire.specs.Collecting.{ends};

    /// Whether it ended an object.
    pub(crate) fn has_ended(self) -> bool
        ensures { result ≡ ends self }
    {
        match self {
            Payment::Ended | Payment::Helped => true,
            Payment::Left | Payment::Lost | Payment::NoHelp | Payment::Freed => false,
        }
    }
}

/// What a collect did.
#[derive(Clone, Copy, PartialEq, Eq, Debug, Drop)]
pub struct Work {
    /// How many announcement words it read: those of all seats, each once.
    pub scanned: u32,
    /// How many retired references it gave up.
    pub ejected: u32,
    /// How many objects it ended.
    pub ended: u32,
}
