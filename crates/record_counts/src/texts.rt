//! What the slots of one text take.
ghost use Rattle.std.specs.Prelude.{◌≡◌, length, sum_by};
ghost use Rattle.directory_law.specs.Bytes.{IsPiece, piece_weight, text_bytes};
ghost use Rattle.directory_law.specs.Payloads.{IsText, Text};
ghost use Rattle.directory_law.specs.Views.{Each};
ghost use Rattle.cdrc_text.specs.Text.{slots_of_word};

/// A text has as many slots as the report counts for its word, and they weigh as much as the word has bytes.
pub fn words_take_slots()
    ensures slots { (text : Text) → IsText text → Each IsPiece text
        → length text ≡ slots_of_word (text_bytes text) }
    ensures bytes { (text : Text) → IsText text → Each IsPiece text
        → sum_by piece_weight text ≡ length (text_bytes text) }
{}
