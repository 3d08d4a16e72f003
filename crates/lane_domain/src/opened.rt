//! What is opened, and why nothing is.
ghost use Rattle.std.specs.Prelude.{◌≡◌};
ghost use Rattle.lane_domain.specs.declared.opened.OpenLanesError.TheVariants as refused;

use lane_files::{Domain, OutOfMemory as NoMemory, Seat, Shared, WordsLaw};

/// A domain whose queue is laid, with seat 0 and the seats of its lanes.
#[derive(Drop)]
pub struct Opened {
    pub domain: Domain<WordsLaw>,
    /// Seat 0, which laid the queue.
    pub root: Seat<WordsLaw>,
    /// The seats of the lanes, in order.
    pub seats: Vec<Seat<WordsLaw>>,
    /// The queue and the directory.
    pub shared: Shared,
}

/// A domain whose queue isn't laid, and its seat 0.
#[derive(Drop)]
pub struct Unlaid {
    pub domain: Domain<WordsLaw>,
    pub root: Seat<WordsLaw>,
}

/// Why no lanes were opened.
#[derive(Drop)]
pub enum OpenLanesError {
    OutOfMemory,
    /// Seat 0 found each slot taken, so the queue isn't laid.
    Full(Unlaid),
}

impl From<NoMemory> for OpenLanesError {
    ghost from_gives = { λ _ error. error ≡ refused.OutOfMemory };

    fn from(_error: NoMemory) -> OpenLanesError {
        OpenLanesError::OutOfMemory
    }
}
