//! What became of the observer of an id.
use weak_part_calls::Strong;

/// What a call found of the observer in the cell of an id.
#[derive(Debug, Drop)]
pub(crate) enum Reached {
    /// The cell was null.
    Absent,
    /// It referred to an observer that had ended: there was no strong reference to it.
    Ended,
    /// It referred to one that lived, and this is a strong reference to it.
    Alive(Strong),
}
