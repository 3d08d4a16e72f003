//! What a lane has beside its seat.
ghost use Rattle.std.specs.Prelude.{◌≡◌, [], ℕ, List};
ghost use Rattle.cdrc_text.specs.Tally.{count_of, total_of};

use crate::keeper::Keeper;
use cdrc_text::Tally;
use std::alloc::Global;

/// What a lane has beside its seat.
#[derive(Drop)]
pub struct Lane {
    /// Which lane it is, from 0.
    pub number: u32,
    /// How many pieces it has begun.
    pub turn: u64,
    /// How often it popped each word.
    pub tally: Tally,
    /// The references to records that it keeps.
    pub keeper: Keeper,
}

impl Lane {
    /// A lane that has counted nothing and keeps nothing.
    pub fn new(alloc: Global, number: u32) -> Lane
        ensures number { (result.number ≡ number) × (result.turn ≡ 0) }
        ensures counts { (w : List ℕ) → count_of result.tally w ≡ 0 }
        ensures total { total_of result.tally ≡ 0 }
        ensures kept { result.keeper.kept.items ≡ [] }
    {
        Lane {
            number,
            turn: 0,
            tally: Tally::new(alloc),
            keeper: Keeper::new(alloc),
        }
    }
}
