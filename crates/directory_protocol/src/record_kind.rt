//! What a directory puts into its slots.
ghost use Rattle.directory_law.specs.Bytes.{IsPiece, piece_weight};
ghost use Rattle.directory_law.proofs.Bytes.{piece_bounded};

use protocol_pairs::PayloadKind;

/// Heads and parts of texts of 1 to 4,096 bytes.
///
/// Word 0 of a head is the text's length; words 1 to 15 hold its first 120 bytes, eight in a word, the first byte
/// lowest, and then zeros. Word 0 of a part is 65,536 and the number of its bytes, 1 to 120, which its other words
/// hold. An object weighs as much as it holds bytes.
#[derive(Clone, Copy, Debug, Drop)]
pub struct RecordKind;

impl PayloadKind for RecordKind {
    ghost fits = { IsPiece };

    ghost weight = { piece_weight };

    fn weigh(payload: &[u64; 16]) -> u64 {
        if payload[0] > 65536 {
            payload[0] - 65536
        } else {
            payload[0].min(120)
        }
    }

    ghost bounded = { piece_bounded };
}
