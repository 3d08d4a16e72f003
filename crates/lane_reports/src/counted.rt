//! What is counted, and why nothing is.
ghost use Rattle.std.specs.Prelude.{◌≡◌};
ghost use Rattle.lane_reports.specs.declared.counted.CountError.TheVariants as refused;

use domain_audit::Seat;
use lane_domain::WordsLaw;
use tally_sums::{OutOfMemory as NoMemory, Tally};

/// What was counted.
#[derive(Drop)]
pub struct Counted {
    /// The report.
    pub text: Vec<u8>,
    /// Seat 0, which is alone by now.
    pub root: Seat<WordsLaw>,
    /// How often seat 0 popped each word, and then the same of each lane, in order.
    pub tallies: Vec<Tally>,
}

/// Why nothing was counted.
#[derive(Drop)]
pub enum CountError {
    OutOfMemory,
    /// This seat found each slot taken.
    Full(Seat<WordsLaw>),
    /// This seat had no add left.
    Spent(Seat<WordsLaw>),
}

impl From<NoMemory> for CountError {
    ghost from_gives = { λ _ error. error ≡ refused.OutOfMemory };

    fn from(_error: NoMemory) -> CountError {
        CountError::OutOfMemory
    }
}
