//! The deed by which a seat begins to read what it popped.
ghost use Rattle.words_law.specs.Reading.{BeginReady, BeginTells, begin_next};
ghost use Rattle.words_law.proofs.Reading.{begin_keeps};
ghost use Rattle.words_protocol.specs.Sides.{area_of, ends_of};

use crate::law::WordsLaw;
use queue_law::Deed;

/// A look or a check of field 1 of a slot that the seat holds strongly and has popped, in the life in which it holds
/// it: its payload is read. It is the live record of a text that begins with this payload; and the deeds of the
/// directory read on from there.
#[derive(Clone, Copy, Drop)]
pub struct BeginRead;

impl Deed<WordsLaw> for BeginRead {
    ghost ready = { λ it of. BeginReady };

    ghost next = { λ it of. begin_next };

    ghost allows = { λ it of. BeginTells (area_of of.pair.right) };

    ghost keeps = { λ it of. begin_keeps (ends_of of.pair.left) (area_of of.pair.right) };
}
