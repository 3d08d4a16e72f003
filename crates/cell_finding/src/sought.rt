//! What a walk looks for, and what it meets.
ghost use Rattle.std.specs.Prelude.{◌≡◌, ◌≤◌, length};
ghost use Rattle.cell_finding.specs.Sought.{IsSought};

use epoch_refs::SlotId;
use record_texts::{hash_of, head_of};

/// A text that is looked for.
#[derive(Drop)]
pub struct Sought<'a> {
    /// The text, 1 to 4,096 bytes.
    pub text: &'a [u8],
    /// The payload of its head.
    pub head: [u64; 16],
    /// The number from which its place is taken, below 2^32.
    pub hash: u64,
}

/// What the walk of a text meets in one cell.
#[derive(Debug, Drop)]
pub enum Sight {
    /// The cell was null.
    Null,
    /// The cell has the record of another text, so the walk passes it.
    Other,
    /// The record of the text.
    Record(SlotId),
}

/// Where the walk of a text ends.
#[derive(Debug, Drop)]
pub enum Walk {
    /// At a cell that was null, after so many that were passed.
    Null(u32),
    /// At the record of the text.
    Record(SlotId),
    /// Nowhere: it has passed all cells.
    Around,
}

/// What the walk of a text looks for. It takes no step.
pub fn sought_text(text: &[u8]) -> Sought<'_>
    requires { (1 ≤ length text.now) × (length text.now ≤ 4096) }
    ensures same { result.text.now ≡ text.now }
    ensures sought { IsSought result.text.now result.head result.hash }
{
    Sought {
        text,
        head: head_of(text),
        hash: hash_of(text),
    }
}
