//! A file, as its lane reads it.
ghost use Rattle.std.specs.Prelude.{◌≡◌, ◌<◌, ◌≤◌, [], IfErr, IfOk, length, slice_index_or};
ghost use Rattle.cdrc_text.specs.Pieces.{pieces_of};
ghost use Rattle.cdrc_text.specs.Refused.{IsCauseOf};
ghost use Rattle.lane_work.specs.FilePieces.{HasPieces, pieces_in};

use cdrc_text::{Pieces, PiecesError, pieces};
use std::alloc::Global;

/// The bytes of a file, and where its pieces lie.
#[derive(Drop)]
pub struct FileText {
    pub bytes: Vec<u8>,
    pub pieces: Pieces,
}

impl FileText {
    /// These bytes, and where `cdrc_text` cuts them into pieces. It is refused exactly where there are more than
    /// `limit` pieces, and an allocation may fail. Linear in the bytes.
    pub fn cut(alloc: Global, bytes: Vec<u8>, limit: u64) -> Result<FileText, PiecesError>
        ensures words { IfOk result (λ file. pieces_in file ≡ pieces_of bytes.items) }
        ensures lies { IfOk result HasPieces }
        ensures within { IfOk result (λ file. length (pieces_in file) ≤ limit) }
        ensures refused { IfErr result (IsCauseOf bytes.items limit) }
    {
        let pieces = pieces(alloc, &bytes, limit)?;
        Ok(FileText { bytes, pieces })
    }

    /// The piece of this number, from 0. One step.
    pub fn piece(&self, number: u64) -> &[u8]
        requires there { number < length self.now.pieces }
        requires lies { HasPieces self.now }
        ensures { result.now ≡ slice_index_or (pieces_in self.now) number [] }
    {
        let (first, size) = self.pieces.get(number);
        &self.bytes[first as usize..(first + size) as usize]
    }
}
