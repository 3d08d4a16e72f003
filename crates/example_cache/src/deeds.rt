//! The deeds by which seats remember a value and recall it.
ghost use Rattle.example_cache.specs.Deeds.{RecallReady, RecallTells, RememberReady, RememberTells, recall_next, remember_next};
ghost use Rattle.example_cache.specs.Makes.{recall_keeps, remember_keeps};

use crate::law::CacheLaw;
use cdrc::{Deed, PayloadKind};

/// The weak cell gets an object that the seat owns strongly, whose value joins those that the seat remembered; or null.
#[derive(Clone, Copy, Debug, Drop)]
pub struct RememberValue;

impl<K: PayloadKind> Deed<CacheLaw<K>> for RememberValue {
    ghost ready = { λ it of. RememberReady of.cell };

    ghost next = { λ it of. remember_next };

    ghost allows = { λ it of. RememberTells of.cell };

    ghost keeps = { λ it of. remember_keeps of.cell };
}

/// What the weak cell holds, by a look or a check. If the seat has the object afterwards, as under a snapshot, its
/// value joins those that the seat recalled.
#[derive(Clone, Copy, Debug, Drop)]
pub struct RecallValue;

impl<K: PayloadKind> Deed<CacheLaw<K>> for RecallValue {
    ghost ready = { λ it of. RecallReady of.cell };

    ghost next = { λ it of. recall_next };

    ghost allows = { λ it of. RecallTells of.cell };

    ghost keeps = { λ it of. recall_keeps of.cell };
}
