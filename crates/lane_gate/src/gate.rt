use std::sync::Wait;

/// What a lane passes before each of its pieces. A gate may hold a lane, and so arrange which lane
/// goes first.
pub trait Gate {
    /// Called by lane `lane` before its piece number `turn`, counted from 0. It may wait.
    fn pass<R: Wait>(&self, rt: &R, lane: u32, turn: u64);
}

/// The gate that holds nobody.
#[derive(Clone, Copy, PartialEq, Eq, Debug, Drop)]
pub struct Open;

impl Gate for Open {
    /// Returns at once.
    fn pass<R: Wait>(&self, _rt: &R, _lane: u32, _turn: u64) {}
}
