//! The snapshot words of one seat.
ghost use Rattle.std.specs.Prelude.{◌≡◌, ◌↔◌, ℕ, IsNone, IfSome, IsTrue, true, false};
ghost use Rattle.announce_slots.specs.InUse.{is_used, IsFull, IsLeastFree, SameBut};

use std::marker::Model;

/// Which of a seat's announcement words 1, 2 and 3 are in use.
#[derive(Drop)]
pub struct Notes {
    in_use: [bool; 3],
}

impl Model for Notes {
    ghost use Rattle.std.specs.Prelude.{Bool, List};

    ghost Value = { List Bool };

    ghost view = { λ notes. notes.in_use };
}

impl Notes {
    /// No word is in use.
    pub fn new() -> Notes
        ensures { (word : ℕ) → is_used result word ≡ false }
    {
        Notes { in_use: [false; 3] }
    }

    /// Takes the least free word. None exactly where all three are in use.
    pub fn take(&mut self) -> Option<u32>
        ensures none { IsNone result ↔ IsFull self.old }
        ensures least { IfSome result (IsLeastFree self.old) }
        ensures taken { IfSome result (λ word. is_used self.new word ≡ true) }
        ensures others { IfSome result (λ word. SameBut word self.old self.new) }
        ensures stays { (word : ℕ) → is_used self.old word ≡ true → is_used self.new word ≡ true }
        ensures unchanged { IsNone result → self.new ≡ self.old }
    {
        let place = self.in_use.iter().position(|used| !*used)?;
        self.in_use[place] = true;
        Some(place as u32 + 1)
    }

    /// Gives a word back.
    pub fn give(&mut self, word: u32)
        requires { IsTrue (is_used self.old word) }
        ensures given { is_used self.new word ≡ false }
        ensures others { SameBut word self.old self.new }
    {
        self.in_use[word as usize - 1] = false;
    }
}
