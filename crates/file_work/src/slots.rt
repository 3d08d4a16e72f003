//! How many slots some work takes.
ghost use Rattle.std.specs.Prelude.{◌≡◌};
ghost use Rattle.lane_work.specs.FilePieces.{HasPieces};
ghost use Rattle.lane_work.specs.Sizes.{IsWithinLimits};
ghost use Rattle.lane_work.specs.Work.{IsWork};
ghost use Rattle.file_work.specs.Limits.{most_of};

use lane_work::{FileText, OutOfMemory, Work, count_pieces, count_slots};
use std::alloc::{AllocError, Global};
use std::collections::HashSet;

/// How many bytes of a word a slot holds.
const SLOT_BYTES: u64 = 120;

/// So many slots serve, whatever the lanes do: one for each object that is made.
pub fn slots_that_serve(work: &Work) -> u32
    requires work { IsWork work.now }
    requires within { IsWithinLimits work.now }
    ensures { result ≡ most_of work.now }
{
    (work.rounds * (count_pieces(work) + count_slots(work)) + 2) as u32
}

/// The words of a file that aren't in the set yet join it. How many slots their records take. A step for each piece.
fn add_words<'a>(words: &mut HashSet<&'a [u8]>, file: &'a FileText) -> Result<u64, AllocError>
    requires lies { HasPieces file.now }
{
    let mut slots: u64 = 0;
    for number in 0..file.pieces.len() {
        let word = file.piece(number);
        if words.insert(word)? {
            slots = slots.saturating_add((word.len() as u64).div_ceil(SLOT_BYTES));
        }
    }
    Ok(slots)
}

/// How many slots the records of the distinct words take, which is what a count is likely to need. No clause says so:
/// a count on another number is right, or is refused as full. A step for each piece.
pub fn count_distinct_slots(alloc: Global, work: &Work) -> Result<u64, OutOfMemory>
    requires work { IsWork work.now }
{
    let mut slots: u64 = 0;
    let mut words = HashSet::new(alloc);
    for ticket in 0..work.files.len() as u64 {
        slots = slots.saturating_add(add_words(&mut words, work.file(ticket))?);
    }
    Ok(slots)
}
