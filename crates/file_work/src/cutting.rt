//! How contents are cut into pieces.
ghost use Rattle.std.specs.Prelude.{◌≡◌, ◌≤◌, ◌<◌, ◌*◌, ◌+◌, All, IfErr, IfOk, IfSome, length, map};
ghost use Rattle.lane_work.specs.cdrc_text.Pieces.{pieces_of};
ghost use Rattle.lane_work.specs.FilePieces.{HasPieces, pieces_in};
ghost use Rattle.file_work.specs.Cuts.{IsWhyUncut};
ghost use Rattle.file_work.specs.Limits.{most_pieces, pieces_in_all};
ghost use Rattle.file_work.specs.Contents.{bytes_of};

use crate::refused::Refused;
use lane_work::{FileText, PiecesError};
use std::alloc::Global;

/// The most pieces of all files together.
const MOST_PIECES: u64 = 1_000_000;

/// A content of at most so many pieces, cut.
fn cut_file<S>(alloc: Global, content: Vec<u8>, limit: u64) -> Result<FileText, Refused<S>>
    ensures words { IfOk result (λ file. pieces_in file ≡ pieces_of content.items) }
    ensures lies { IfOk result HasPieces }
    ensures within { IfOk result (λ file. length (pieces_in file) ≤ limit) }
    ensures why { IfErr result (IsWhyUncut limit (length (pieces_of content.items))) }
{
    match FileText::cut(alloc, content, limit) {
        Ok(file) => Ok(file),
        Err(PiecesError::TooMany(_)) => Err(Refused::TooLarge),
        Err(PiecesError::OutOfMemory) => Err(Refused::OutOfMemory),
    }
}

/// The contents, cut, if they have at most 1,000,000 pieces together. Linear in the bytes.
pub(crate) fn cut_files<S>(
    alloc: Global,
    contents: Vec<Vec<u8>>,
) -> Result<Vec<FileText>, Refused<S>>
    ensures words { IfOk result (λ files.
        map pieces_in files.items ≡ map pieces_of (bytes_of contents.items)) }
    ensures lies { IfOk result (λ files. All HasPieces files.items) }
    ensures within { IfOk result (λ files.
        pieces_in_all (map pieces_in files.items) ≤ most_pieces) }
    ensures why { IfErr result (IsWhyUncut most_pieces
        (pieces_in_all (map pieces_of (bytes_of contents.items)))) }
{
    let mut files = Vec::with_capacity(alloc, contents.len())?;
    let mut left = MOST_PIECES;
    for content in contents {
        let file = cut_file(alloc, content, left)?;
        left -= file.pieces.len();
        files.push_reserved(file);
    }
    Ok(files)
}
