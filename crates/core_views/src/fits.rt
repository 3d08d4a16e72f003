//! Whether the numbers of a seat, and a word, are in their ranges.
ghost use Rattle.std.specs.Prelude.{◌↔◌, IsTrue};
ghost use Rattle.core_views.specs.Fits.{IsFit, IsWordFor};

use crate::seat::OwnView;
use core_functions::{Act, Shape, is_filling};

/// Whether the act can find the word: on a place a word is 0, or the number of a slot of the domain
/// and one.
pub fn is_word_for(shape: &Shape, act: &Act, word: u64) -> bool
    ensures { IsTrue result ↔ IsWordFor shape.now act.now word }
{
    match *act {
        Act::Look(_) | Act::Check(_, _) | Act::Swap(_, _) | Act::Cas(_, _, _) => {
            word <= u64::from(shape.slots)
        }
        _ => true,
    }
}

impl OwnView {
    /// Whether the seat's numbers are in their ranges, as those of every seat that keeps to the
    /// table are.
    pub fn is_fit(&self) -> bool
        ensures { IsTrue result ↔ IsFit self.now }
    {
        let has = &self.holdings;
        has.is_within_room()
            && has.has_few_makes()
            && has.seen.len() < u32::MAX as usize
            && (has.has_add() || !is_filling(has.phase))
    }
}
