//! Why a lane goes no further, in a piece, in a file, and at all.
ghost use Rattle.std.specs.Prelude.{◌≡◌};
ghost use Rattle.lane_files.specs.declared.refusal.FileError.TheVariants as refused;
ghost use Rattle.lane_files.specs.declared.refusal.LaneError.TheVariants as missed;
ghost use Rattle.lane_files.specs.declared.refusal.LaneStop.TheVariants as stopped;

use control_word::Spent;
use hand_queues::MakeError;
use words_protocol::OutOfMemory;

/// Why a lane goes no further.
#[derive(Clone, Copy, PartialEq, Eq, Debug, Drop)]
pub enum LaneError {
    /// A make or an add was refused.
    Refused(MakeError),
    /// An allocation failed.
    OutOfMemory,
}

impl From<OutOfMemory> for LaneError {
    ghost from_gives = { λ _ r. r ≡ missed.OutOfMemory };

    fn from(_error: OutOfMemory) -> LaneError {
        LaneError::OutOfMemory
    }
}

/// At which step of a piece a lane went no further, and why.
#[derive(Clone, Copy, PartialEq, Eq, Debug, Drop)]
pub enum PieceError {
    /// The piece got no record: no intern was used, and nothing pushed.
    Interning(MakeError),
    /// Its record wasn't pushed. The intern was used.
    Offering(MakeError),
    /// Its record was pushed, and then no word was counted. The intern was used.
    Taking(LaneError),
}

/// Why a lane counts no further in a file.
#[derive(Clone, Copy, PartialEq, Eq, Debug, Drop)]
pub enum FileError {
    /// A piece wasn't counted.
    Piece(PieceError),
    /// There was no memory for one reference more that is kept.
    OutOfMemory,
}

impl From<OutOfMemory> for FileError {
    ghost from_gives = { λ _ r. r ≡ refused.OutOfMemory };

    fn from(_error: OutOfMemory) -> FileError {
        FileError::OutOfMemory
    }
}

impl From<PieceError> for FileError {
    ghost from_gives = { λ error r. r ≡ refused.Piece error };

    fn from(error: PieceError) -> FileError {
        FileError::Piece(error)
    }
}

/// Why a lane draws no further ticket.
#[derive(Clone, Copy, PartialEq, Eq, Debug, Drop)]
pub enum LaneStop {
    /// The seat had no add left for a ticket.
    Spent,
    /// A file wasn't counted to its end.
    File(FileError),
}

impl From<Spent> for LaneStop {
    ghost from_gives = { λ _ r. r ≡ stopped.Spent };

    fn from(_error: Spent) -> LaneStop {
        LaneStop::Spent
    }
}

impl From<FileError> for LaneStop {
    ghost from_gives = { λ error r. r ≡ stopped.File error };

    fn from(error: FileError) -> LaneStop {
        LaneStop::File(error)
    }
}
