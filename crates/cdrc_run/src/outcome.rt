//! How a run ends.
use cdrc_scripts::{NoLaw, ScriptKind, Seat};
use command_line::Tally;
use epoch_work::{CellLaw, EpochSeat};
use words_work::WordsLaw;

/// The evidence of a run.
#[derive(Drop)]
pub enum Why {
    /// There is none: nothing ran on a domain, or it was given up.
    Nothing,
    /// Seat 0 of the domain on which words were counted, after all other seats have left, and what each seat popped, in
    /// the order of their numbers. Where a seat was refused, this seat, and nothing popped.
    Words(Seat<WordsLaw>, Vec<Tally>),
    /// Seat 0 of the domain on which words were counted by lanes that open regions, after all other seats have left.
    /// Where a seat was refused, this seat.
    Epoch(EpochSeat<CellLaw>),
    /// The seat of the domain on which a script ran, after all that the script had bound was given up. Its trail shows
    /// what the script did.
    Script(Seat<NoLaw<ScriptKind>>),
}

/// A seat that was refused while lanes counted words.
#[derive(Drop)]
pub enum RefusedSeat {
    /// By announcements.
    Words(Seat<WordsLaw>),
    /// In regions.
    Epoch(EpochSeat<CellLaw>),
}

/// What a job writes, whether a line was refused, and the evidence.
#[derive(Drop)]
pub struct Output {
    pub text: Vec<u8>,
    pub refused: bool,
    pub why: Why,
}

/// How a run ended: the status, and the evidence for it.
#[derive(Drop)]
pub struct End {
    pub status: u8,
    pub why: Why,
}
