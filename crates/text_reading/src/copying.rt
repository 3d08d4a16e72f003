//! The bytes of payloads, put into a buffer.
ghost use Rattle.std.specs.Prelude.{◌≡◌, ◌≤◌, ◌+◌, ◌++◌, take};
ghost use Rattle.directory_calls.specs.directory_law.Bytes.{low_bytes, piece_bytes};

/// Puts so many bytes that a payload holds behind the first `from` bytes of `out`, which stay.
pub(crate) fn put_payload(payload: &[u64; 16], count: u32, out: &mut [u8; 4096], from: u32)
    requires few { count ≤ 120 }
    requires fits { from + count ≤ 4096 }
    ensures { take (from + count) out.new ≡ take from out.old ++ piece_bytes count payload.now }
{
    let mut at = from;
    let mut left = count;
    for word in 1..16usize {
        let some = left.min(8);
        put_word(payload[word], some, out, at);
        at += some;
        left -= some;
    }
}

/// Puts so many bytes of a word, the lowest first, behind the first `from` bytes of `out`, which
/// stay.
fn put_word(word: u64, count: u32, out: &mut [u8; 4096], from: u32)
    requires few { count ≤ 8 }
    requires fits { from + count ≤ 4096 }
    ensures { take (from + count) out.new ≡ take from out.old ++ low_bytes count word }
{
    let mut rest = word;
    for index in 0..count {
        out[(from + index) as usize] = (rest % 256) as u8;
        rest /= 256;
    }
}
