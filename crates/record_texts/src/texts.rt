//! Texts as the payloads of slots, and where their walks begin.
ghost use Rattle.std.specs.Prelude.{◌≡◌, ◌≤◌, ◌<◌, ◌+◌, ◌*◌, ◌%◌, ◌^◌, length, take, drop};
ghost use Rattle.directory_law.specs.Places.{hash_on};
ghost use Rattle.record_texts.specs.Texts.{part_of, payload_of};

use plain_state::record_of;

/// The payload of the head of a text of 1 to 4,096 bytes: their number, and the first 120 of them.
pub fn head_of(text: &[u8]) -> [u64; 16]
    requires { (1 ≤ length text.now) × (length text.now ≤ 4096) }
    ensures { result ≡ payload_of (length text.now) (take 120 text.now) }
{
    piece(text.len() as u64, first_120(text))
}

/// The payload of part k of a text of more than 120 bytes: the first 120 bytes after so many slots, and their number.
pub fn part_at(text: &[u8], k: usize) -> [u64; 16]
    requires inside { 120 * (k + 1) < length text.now }
    requires most { length text.now ≤ 4096 }
    ensures { result ≡ part_of (drop (120 * (k + 1)) text.now) }
{
    let (_, rest) = text.split_at(120 * (k + 1));
    let bytes = first_120(rest);
    piece(65536 + bytes.len() as u64, bytes)
}

/// The first 120 bytes, or all where they are fewer.
fn first_120(text: &[u8]) -> &[u8]
    ensures { result.now ≡ take 120 text.now }
{
    let (first, _) = text.split_at(text.len().min(120));
    first
}

/// A payload with this number in word 0, and with these bytes.
fn piece(number: u64, bytes: &[u8]) -> [u64; 16]
    requires { (1 ≤ length bytes.now) × (length bytes.now ≤ 120) }
    ensures { result ≡ payload_of number bytes.now }
{
    let mut payload = record_of(bytes);
    payload[0] = number;
    payload
}

/// The number from which the place of a text is taken: each byte in turn makes another one of it.
pub fn hash_of(text: &[u8]) -> u64
    ensures hash { result ≡ hash_on 0 text.now }
    ensures small { result < 2 ^ 32 }
{
    let mut hash: u64 = 0;
    for byte in text {
        hash = (257 * hash + u64::from(*byte) + 1) % 4294967296;
    }
    hash
}

/// The cell on the walk of a text with this number that comes after so many others.
pub fn cell_on(hash: u64, passed: u32, cells: u32) -> u32
    requires some_cells { 0 < cells }
    requires small { hash < 2 ^ 32 }
    ensures cell { result ≡ (hash + passed) % cells }
    ensures inside { result < cells }
{
    ((hash + u64::from(passed)) % u64::from(cells)) as u32
}
