//! The places of the pieces of a text.

ghost use Rattle.std.specs.Prelude.{◌≡◌, ◌<◌, ◌↔◌, ℕ, List, IsTrue, length, slice_index_or};

use std::marker::Model;

/// Where the pieces of a text lie. A clause sees the list of the first bytes and lengths, in the text's order.
#[derive(Drop)]
pub struct Pieces {
    pub(crate) places: Vec<(u64, u64)>,
}

impl Model for Pieces {
    ghost Value = { List (ℕ × ℕ) };

    ghost view = { λ p. p.places.items };
}

impl Pieces {
    /// How many pieces there are.
    pub fn len(&self) -> u64
        ensures { result ≡ length self.now }
    {
        self.places.len() as u64
    }

    /// There is no piece.
    pub fn is_empty(&self) -> bool
        ensures { IsTrue result ↔ (length self.now ≡ 0) }
    {
        self.places.is_empty()
    }

    /// The byte place of the piece's first byte, and its length in bytes. One step.
    pub fn get(&self, index: u64) -> (u64, u64)
        requires { index < length self.now }
        ensures { result ≡ slice_index_or self.now index result }
    {
        self.places[index as usize]
    }
}
