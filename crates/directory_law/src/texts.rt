//! Texts of bytes, and the payloads of their slots.
ghost use Rattle.std.specs.Prelude.{◌≡◌, ◌≤◌, ℕ, List, [], ◌∷◌, ◌++◌, length, sum_by};
ghost use Rattle.plain_protocol.specs.plain_state.State.{no_payload};
ghost use Rattle.directory_law.specs.Payloads.{Text, IsOwn, IsText, size};
ghost use Rattle.directory_law.specs.Bytes.{AreBytes, IsTextOf, IsPiece, text_bytes, piece_weight};
ghost use Rattle.directory_law.specs.Places.{hash_on, text_hash};
ghost use Rattle.directory_law.specs.Views.{Each};

/// Bytes and payloads determine one another: some bytes have one text, and a text tells its bytes. It is what the law
/// calls a text, each of its slots has the payload of a head or of a part, and all of them weigh as much as the text
/// has bytes. Such payloads are the directory's, and words that are all 0 are not. The place is taken from the bytes;
/// that of `ab` from 25285.
pub fn laws_of_texts()
    ensures one_text { (bytes : List ℕ) (a b : Text) → IsTextOf bytes a → IsTextOf bytes b → a ≡ b }
    ensures bytes { (bytes : List ℕ) (text : Text) → AreBytes bytes → IsTextOf bytes text
        → text_bytes text ≡ bytes }
    ensures is_text { (bytes : List ℕ) (text : Text) → IsTextOf bytes text → IsText text }
    ensures pieces { (bytes : List ℕ) (text : Text) → AreBytes bytes → IsTextOf bytes text
        → Each IsPiece text }
    ensures weighs { (bytes : List ℕ) (text : Text) → IsTextOf bytes text
        → sum_by piece_weight text ≡ length bytes }
    ensures owned { (payload : List ℕ) → IsPiece payload → IsOwn payload }
    ensures zeros { ¬ (IsOwn no_payload) }
    ensures place { (bytes : List ℕ) (text : Text) → AreBytes bytes → IsTextOf bytes text
        → text_hash text ≡ hash_on 0 bytes }
    ensures example { hash_on 0 (97 ∷ 98 ∷ []) ≡ 25285 }
{}

/// A text whose head tells at most 120 bytes has no part, and what follows a whole text is nothing.
pub fn texts_end()
    ensures short { (head : List ℕ) (tail : Text) → IsText (head ∷ tail) → size head ≤ 120
        → head ∷ tail ≡ head ∷ [] }
    ensures whole { (a b : Text) → IsText a → IsText (a ++ b) → b ≡ [] }
{}
