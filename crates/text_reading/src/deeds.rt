//! The deed by which a part is read.
ghost use Rattle.directory_calls.specs.directory_law.Cells.{area};
ghost use Rattle.directory_calls.specs.directory_law.Lessons.{ReadReady, read_next};
ghost use Rattle.text_reading.specs.Going.{PartTells};
ghost use Rattle.text_reading.specs.Deeds.{part_keeps};

use directory_calls::DirectoryLaw;
use snapshot_ptr::Deed;

/// A check of field 1 of the slot that was read last, as with `ReadOn`. It tells also that each
/// text that the seat has begun to read goes on to a whole one.
#[derive(Clone, Copy, Drop)]
pub struct ReadPart;

impl Deed<DirectoryLaw> for ReadPart {
    ghost ready = { λ it of. ReadReady };

    ghost next = { λ it of. read_next };

    ghost allows = { λ it of. PartTells };

    ghost keeps = { λ it of. part_keeps (area of.first of.cells of.interns.items of.to) };
}
