//! How much of a domain some work takes.
ghost use Rattle.std.specs.Prelude.{◌≡◌, ◌^◌, ◌≤◌, ◌↔◌, IsTrue, length};
ghost use Rattle.lane_work.specs.FilePieces.{HasPieces, pieces_in};
ghost use Rattle.lane_work.specs.Work.{IsWork};
ghost use Rattle.lane_work.specs.Sizes.{IsWithinLimits, all_parts, all_pieces, parts_in};

use crate::file::FileText;
use crate::work::Work;
use plain_state::MOST_SLOTS;

/// How many bytes of a text a slot holds.
const SLOT_BYTES: u64 = 120;

/// The most interns that all tickets grant.
const MOST_INTERNS: u64 = 1_000_000;

/// How many slots the records of the file's pieces take. A step for each piece.
pub fn count_parts(file: &FileText) -> u64
    requires lies { HasPieces file.now }
    requires few { length (pieces_in file.now) ≤ 2 ^ 20 }
    ensures { result ≡ parts_in file.now }
{
    let mut parts = 0;
    for number in 0..file.pieces.len() {
        parts += (file.piece(number).len() as u64).div_ceil(SLOT_BYTES);
    }
    parts
}

/// How many pieces all files have, once each. A step for each file.
pub fn count_pieces(work: &Work) -> u64
    requires { IsWork work.now }
    ensures { result ≡ all_pieces work.now }
{
    let mut pieces = 0;
    for ticket in 0..work.files.len() as u64 {
        pieces += work.file(ticket).pieces.len();
    }
    pieces
}

/// How many slots the records of all pieces take, once each. A step for each piece.
pub fn count_slots(work: &Work) -> u64
    requires { IsWork work.now }
    ensures { result ≡ all_parts work.now }
{
    let mut parts = 0;
    for ticket in 0..work.files.len() as u64 {
        parts += count_parts(work.file(ticket));
    }
    parts
}

/// Whether one domain serves the work: there are at most 1,000,000 interns in all rounds, and at most 4,194,302 objects
/// are made for them. A step for each piece.
pub fn is_within_limits(work: &Work) -> bool
    requires { IsWork work.now }
    ensures { IsTrue result ↔ IsWithinLimits work.now }
{
    let pieces = count_pieces(work);
    let makes = pieces + count_slots(work);
    work.rounds * pieces <= MOST_INTERNS && work.rounds * makes + 2 <= u64::from(MOST_SLOTS)
}
