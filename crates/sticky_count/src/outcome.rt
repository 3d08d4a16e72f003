//! What a call may answer in place of a value.

/// The seat has used all its adds.
#[derive(Clone, Copy, PartialEq, Eq, Debug, Drop)]
pub struct Spent;
