//! The operations that are timed.
ghost use Rattle.std.specs.Prelude.{◌≡◌};
ghost use Rattle.turn_loops.specs.Turns.{turns_of};

/// What a thread does in each of its turns.
#[derive(Clone, Copy, PartialEq, Eq, Debug, Drop)]
pub enum Operation {
    /// Loads a strong reference from the cell, and drops it.
    Load,
    /// Takes a snapshot of what the cell holds, and ends it.
    Snapshot,
    /// Makes an object, stores it into the cell, and reaps what has ended.
    Store,
    /// Copies a strong reference to one shared object, and drops the copy.
    Copy,
    /// Upgrades a weak reference to one shared object, and drops what it got.
    Upgrade,
    /// Makes an object of its own, drops it, and reaps it.
    MakeDrop,
}

/// All operations, in the order in which they are printed.
pub const OPERATIONS: [Operation; 6] = [
    Operation::Load,
    Operation::Snapshot,
    Operation::Store,
    Operation::Copy,
    Operation::Upgrade,
    Operation::MakeDrop,
];

impl Operation {
    /// Its name in the line that is printed.
    pub fn name(self) -> &'static str {
        match self {
            Operation::Load => "load",
            Operation::Snapshot => "snapshot",
            Operation::Store => "store",
            Operation::Copy => "copy",
            Operation::Upgrade => "upgrade",
            Operation::MakeDrop => "makedrop",
        }
    }

    /// How many turns a thread makes: fewer where a turn makes an object.
    pub fn turns(self) -> u64
        ensures { result ≡ turns_of self }
    {
        match self {
            Operation::Store | Operation::MakeDrop => 250_000,
            _ => 1_000_000,
        }
    }
}
