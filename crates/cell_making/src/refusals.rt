//! Why no record was made, and why a head was not bound.
use epoch_refs::Strong;

/// Why no record was made.
#[derive(Clone, Copy, PartialEq, Eq, Debug, Drop)]
pub enum RecordError {
    /// The seat has used all makes of its quota.
    MakesSpent,
    /// The seat has used all adds of its quota.
    AddsSpent,
    /// Each slot of the domain was found taken, in the course of the call.
    Full,
    /// There was no memory for the entry of what a link may take out of a field.
    OutOfMemory,
}

/// Why a head was not bound. It is given back.
#[derive(Debug, Drop)]
pub enum BindError {
    /// The cell holds another head, which the seat has seen there.
    Lost(Strong),
    /// There was no memory for the entry of what an exchange may take out of a cell. No event was made.
    OutOfMemory(Strong),
}
