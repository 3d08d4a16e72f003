//! Writing to a sink.
ghost use Rattle.std.specs.Prelude.{◌≡◌, OnErr, OnOk};
ghost use Rattle.words_work.specs.lane_gate.Causes.{Rose};
ghost use Rattle.cdrc_run.specs.Ends.{TookAll, TookPart};

use words_work::{Sink, SinkFault};

/// Why a sink didn't take all.
#[derive(Clone, Copy, PartialEq, Eq, Debug, Drop)]
pub(crate) enum Unwritten {
    Failed,
    OutOfMemory,
}

/// Offers the sink all bytes that it hasn't taken yet, until it took all. Failed comes only where the sink's count of
/// faults rose; after a refusal the sink took a prefix of the bytes, and not all.
pub(crate) fn write_all<K: Sink>(sink: &mut K, bytes: &[u8]) -> Result<(), Unwritten>
    ensures all { OnOk result (TookAll bytes.now (record {
      before = K.taken sink.old;
      now = K.taken sink.new;
      faults = K.faults sink.old;
      faults_now = K.faults sink.new;
    })) }
    ensures part { OnErr result (TookPart bytes.now (record {
      before = K.taken sink.old;
      now = K.taken sink.new;
      faults = K.faults sink.old;
      faults_now = K.faults sink.new;
    })) }
    ensures failed { result ≡ Err Unwritten.Failed → Rose (K.faults sink.old) (K.faults sink.new) }
{
    let mut taken = 0;
    while taken < bytes.len() {
        match sink.write(&bytes[taken..]) {
            Ok(count) => taken += count as usize,
            Err(SinkFault::Failed) => return Err(Unwritten::Failed),
            Err(SinkFault::OutOfMemory) => return Err(Unwritten::OutOfMemory),
        }
    }
    Ok(())
}
