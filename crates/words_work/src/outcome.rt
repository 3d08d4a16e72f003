//! What was counted, and why nothing was.
use file_work::Refused;
use lane_reports::{Seat, Tally, WordsLaw};

/// What was counted.
#[derive(Drop)]
pub struct WordsDone {
    /// The text.
    pub bytes: Vec<u8>,
    /// Seat 0, after all other seats have left.
    pub root: Seat<WordsLaw>,
    /// How often each seat popped each word, in the order of their numbers.
    pub tallies: Vec<Tally>,
}

/// Why nothing was counted. The seat is one of the domain on which the words were to be counted.
pub type WordsRefused = Refused<Seat<WordsLaw>>;
