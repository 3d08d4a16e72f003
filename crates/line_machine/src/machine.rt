//! What takes the lines of a text.
ghost use Rattle.std.specs.Prelude.{◌≡◌, ◌++◌, ℕ, Bool, List, Ok, None, Some};
ghost use Rattle.line_words.specs.declared.reason.Reason.{Reason};
ghost use Rattle.line_words.specs.Words.{texts_of};

use line_words::{OutOfMemory, Reason};
use std::alloc::Global;

/// What takes the lines of a text one by one, with an aid that is one for all of them. Its ghost members say what a
/// line's words do in each of its states.
pub trait LineMachine<A> {
    /// What an aid must be.
    ghost serves: { A → Type 0 };

    /// In this state the words write these bytes, and lead to that state.
    ghost takes: { Self → List (List ℕ) → List ℕ → Self → Type 0 };

    /// In this state the words are refused for this reason.
    ghost refuses: { Self → List (List ℕ) → Reason → Type 0 };

    /// In this state the end of the text writes these bytes, and is a refusal or isn't.
    ghost ends: { Self → List ℕ → Bool → Type 0 };

    /// Takes the words of a line, and appends what it writes. Some reason comes exactly where the line is refused;
    /// nothing is appended then, and the state stays.
    fn take(
        &mut self,
        aid: &A,
        alloc: Global,
        words: &[&[u8]],
        text: &mut Vec<u8>,
    ) -> Result<Option<Reason>, OutOfMemory>
        requires { serves aid.now }
        ensures taken { result ≡ Ok None → (out : List ℕ) × (text.new.items ≡ text.old.items ++ out)
            × takes self.old (texts_of words.now) out self.new }
        ensures refused { (reason : Reason) → result ≡ Ok (Some reason) →
            (text.new.items ≡ text.old.items) × refuses self.old (texts_of words.now) reason }
        ensures stays { (reason : Reason) → result ≡ Ok (Some reason) → self.new ≡ self.old };

    /// Appends what the end of the text writes. True exactly where it is a refusal.
    fn end(&self, alloc: Global, text: &mut Vec<u8>) -> Result<bool, OutOfMemory>
        ensures { (refused : Bool) → result ≡ Ok refused →
            (out : List ℕ) × (text.new.items ≡ text.old.items ++ out) × ends self.now out refused };
}
