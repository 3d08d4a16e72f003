//! Texts as the payloads of objects.
ghost use Rattle.std.specs.Prelude.{◌≡◌, ◌<◌, ◌≤◌, ◌*◌, ◌+◌, ◌^◌, ℕ, List, length, drop, take};
ghost use Rattle.plain_state.specs.Records.{word_of_bytes, eight_bytes, IsRecordOf, IsRecord, HasOneText, record_weight, record_bounded};

use crate::payload::PayloadKind;

/// Objects that each hold a text of 1 to 120 bytes: word 0 is its length, which is what the object weighs, and the
/// words after it hold its bytes, eight in a word, the first byte lowest.
#[derive(Clone, Copy, Debug, Drop)]
pub struct RecordKind;

impl PayloadKind for RecordKind {
    ghost fits = { IsRecord };

    ghost weight = { record_weight };

    fn weigh(payload: &[u64; 16]) -> u64 {
        payload[0]
    }

    ghost bounded = { record_bounded };
}

/// Up to eight bytes as a word, the first byte lowest.
fn packed(bytes: &[u8]) -> u64
    requires { length bytes.now ≤ 8 }
    ensures { result ≡ word_of_bytes bytes.now }
{
    let mut word: u64 = 0;
    let mut rest = bytes.len();
    while rest > 0 {
        rest -= 1;
        word = word * 256 + u64::from(bytes[rest]);
    }
    word
}

/// Bytes 8k to 8k + 7, as far as they are there.
fn part(text: &[u8], k: usize) -> &[u8]
    requires { k < 15 }
    ensures part { result.now ≡ eight_bytes text.now k }
    ensures size { length result.now ≤ 8 }
{
    let from = text.len().min(8 * k);
    let rest = &text[from..];
    &rest[..rest.len().min(8)]
}

/// The payload of a text of 1 to 120 bytes.
pub fn record_of(text: &[u8]) -> [u64; 16]
    requires { (1 ≤ length text.now) × (length text.now ≤ 120) }
    ensures packs { IsRecordOf text.now result }
    ensures fits { IsRecord result }
{
    let mut payload = [0; 16];
    payload[0] = text.len() as u64;
    for k in 0..15 {
        payload[k + 1] = packed(part(text, k));
    }
    payload
}

/// Texts and payloads are told by each other: a payload that fits has exactly one text, and a text has one payload. It
/// does nothing.
pub fn laws_of_records()
    ensures one_text { (payload : List ℕ) → IsRecord payload → HasOneText payload }
    ensures one_payload { (text x y : List ℕ) → IsRecordOf text x → IsRecordOf text y → x ≡ y }
{}
