//! The pieces of a text.

ghost use Rattle.std.specs.Prelude.{◌≡◌, ◌≤◌, ◌++◌, map, length, IfOk, IfErr, OnOk};
ghost use Rattle.std.specs.List.{All};
ghost use Rattle.cdrc_text.specs.Pieces.{bytes_at, cut_places, pieces_of, places_of, IsPlace};
ghost use Rattle.cdrc_text.specs.Refused.{IsCauseOf, IsOver};

use crate::error::PiecesError;
use crate::places::Pieces;
use bstr::ByteSlice;
use std::alloc::Global;

/// The most bytes of a piece.
const LONGEST: usize = 4096;

/// The places of the pieces of a text, in its order: of its fields, the maximal runs of bytes without
/// White_Space, each cut into consecutive runs of 4,096 bytes. Bytes that aren't UTF-8 count as no space.
/// Linear in the bytes.
///
/// It is refused exactly where there are more than `limit` pieces, with the place of the first piece over the
/// limit, and reads no further then; and an allocation may fail.
pub fn pieces(alloc: Global, bytes: &[u8], limit: u64) -> Result<Pieces, PiecesError>
    ensures places { IfOk result (λ found. found ≡ places_of bytes.now) }
    ensures texts { IfOk result (λ found. map (bytes_at bytes.now) found ≡ pieces_of bytes.now) }
    ensures sizes { IfOk result (All (IsPlace (length bytes.now))) }

    // It succeeds only within the limit, and is refused as too many only past it.
    ensures within { OnOk result (length (pieces_of bytes.now) ≤ limit) }
    ensures refused { IfErr result (IsCauseOf bytes.now limit) }
{
    let mut places = Vec::new(alloc);
    let mut field = None;
    for (start, end, character) in bytes.char_indices() {
        if character.is_whitespace() {
            if let Some((first, last)) = field {
                push_field(&mut places, first, last, limit)?;
                field = None;
            }
        } else {
            field = match field {
                None => Some((start, end)),
                Some((first, _)) => Some((first, end)),
            };
        }
    }
    if let Some((first, last)) = field {
        push_field(&mut places, first, last, limit)?;
    }
    Ok(Pieces { places })
}

// Puts the places of the pieces of a field at the end. Too many is told at the first piece over the limit.
fn push_field(
    places: &mut Vec<(u64, u64)>,
    first: usize,
    end: usize,
    limit: u64,
) -> Result<(), PiecesError>
    requires rises { first ≤ end }
    requires room { length places.old.items ≤ limit }
    ensures ok { OnOk result (places.new.items ≡ places.old.items ++ cut_places (first, end)) }
    ensures within { OnOk result (length places.new.items ≤ limit) }
    ensures refused { IfErr result (IsOver (places.old.items ++ cut_places (first, end)) limit) }
{
    for index in 0..(end - first).div_ceil(LONGEST) {
        let at = first + index * LONGEST;
        if places.len() as u64 == limit {
            return Err(PiecesError::TooMany(at as u64));
        }
        places.push((at as u64, LONGEST.min(end - at) as u64))?;
    }
    Ok(())
}
