ghost use Rattle.std.specs.Prelude.{◌≡◌, ℕ, ◌+◌, ◌<◌, ◌≤◌, ◌++◌, length, List, IfOk, OnOk, OnErr, false};
ghost use Rattle.std.specs.Io.KnownBytes.{IsAtEnd};
ghost use Rattle.lane_gate.specs.Causes.{Rose};
ghost use Rattle.lane_gate.specs.Reads.{is_too_long, GrewWithin};
ghost use Rattle.lane_gate.specs.Streams.{GavePast, Moved, MovedAll};

use crate::files::FileFault;
use crate::source::Source;

/// Reads `source` to its end and appends what it gave to `out`, or gives up once it gave `limit +
/// 1` bytes. A turn asks for a whole `block`, unless the limit is nearer.
pub(crate) fn read_within<S: Source>(
    source: &mut S,
    block: &mut [u8],
    out: &mut Vec<u8>,
    limit: u64,
) -> Result<(), FileFault>
    requires { 0 < length block.old }
    ensures appended { OnOk result (GrewWithin limit out.old.items out.new.items) }
    ensures whole { OnOk result (MovedAll limit
        (S.left source.old) (S.left source.new) out.old.items out.new.items) }
    ensures too_long { result ≡ Err FileFault.TooLong →
        GavePast limit (S.left source.old) (S.left source.new) }
    ensures faults_last { S.faults source.old ≤ S.faults source.new }
    ensures failed { result ≡ Err FileFault.Failed →
        Rose (S.faults source.old) (S.faults source.new) }
    ensures kept { OnErr result (out.new.items ≡ out.old.items) }
{
    let start = out.len();
    match fill(source, block, out, limit) {
        Ok(()) => Ok(()),
        Err(fault) => {
            out.truncate(start);
            Err(fault)
        }
    }
}

// Block after block, until the end or past the limit. Each turn takes at least one byte.
fn fill<S: Source>(
    source: &mut S,
    block: &mut [u8],
    out: &mut Vec<u8>,
    limit: u64,
) -> Result<(), FileFault>
    requires { 0 < length block.old }
    ensures whole { OnOk result (MovedAll limit
        (S.left source.old) (S.left source.new) out.old.items out.new.items) }
    ensures too_long { result ≡ Err FileFault.TooLong →
        GavePast limit (S.left source.old) (S.left source.new) }
    ensures faults_last { S.faults source.old ≤ S.faults source.new }
    ensures failed { result ≡ Err FileFault.Failed →
        Rose (S.faults source.old) (S.faults source.new) }
    ensures grew { (bytes : List ℕ) × (out.new.items ≡ out.old.items ++ bytes) }
{
    let mut got = 0u64;
    while got <= limit {
        let most = (limit - got).saturating_add(1).min(block.len() as u64) as usize;
        let count = read_block(source, &mut block[..most], out)?;
        if count == 0 {
            return Ok(());
        }
        got += count as u64;
    }
    Err(FileFault::TooLong)
}

// One block, or the end.
fn read_block<S: Source>(
    source: &mut S,
    block: &mut [u8],
    out: &mut Vec<u8>,
) -> Result<usize, FileFault>
    requires { 0 < length block.old }
    ensures bound { IfOk result (λ count. count ≤ length block.old) }
    ensures moved { IfOk result (λ count. Moved count
        (S.left source.old) (S.left source.new) out.old.items out.new.items) }
    ensures end { IfOk result (λ count. count ≡ 0 → IsAtEnd (S.left source.new)) }
    ensures faults_last { S.faults source.old ≤ S.faults source.new }
    ensures failed { result ≡ Err FileFault.Failed →
        Rose (S.faults source.old) (S.faults source.new) }
    ensures within { is_too_long result ≡ false }
    ensures kept { OnErr result (out.new.items ≡ out.old.items) }
{
    let count = source.read(block)?;
    out.extend_from_slice(&block[..count])?;
    Ok(count)
}
