//! What the bytes that were read tell of a text.
ghost use Rattle.std.specs.Prelude.{ℕ, List};
ghost use Rattle.directory_calls.specs.directory_law.Bytes.{IsPiece, IsTextOf};
ghost use Rattle.directory_calls.specs.directory_law.Payloads.{IsOwn, IsText, Text};
ghost use Rattle.text_reading.specs.Reading.{AreBytesOf};

use directory_calls::{PairKind, RecordKind};
use snapshot_ptr::PayloadKind;

/// Where what fits a kind and is a directory's is the payload of a head or of a part, the bytes
/// that were read have the text that was read. The call does nothing.
#[tactic(auto, using(crate::proofs::Pieces::bytes_have_text))]
pub fn bytes_have_their_text<K: PayloadKind>()
    ensures { ((words : List ℕ) → K.fits words → IsOwn words → IsPiece words)
        → (bytes : List ℕ) (text : Text) → IsText text → AreBytesOf K.fits bytes text
        → IsTextOf bytes text }
{}

/// What fits the kind of a pair with a directory on its right, and is the directory's, is the
/// payload of a head or of a part. The call does nothing.
pub fn pairs_have_pieces<K: PayloadKind>()
    ensures { (words : List ℕ) → ⟦<PairKind<K, RecordKind> as PayloadKind>⟧.fits words
        → IsOwn words → IsPiece words }
{}
