ghost use Rattle.std.specs.Prelude.{◌≡◌, ℕ, ◌<◌, length, List, OnErr, None};
ghost use Rattle.std.specs.Io.KnownBytes.{Keeps, WriteAppends};
ghost use Rattle.lane_gate.specs.Writes.{CountsFront};

use crate::sink::{Sink, SinkFault};
use std::io;
use std::io::{ErrorKind, Write};

/// Standard output, written without a buffer. It tells nothing, so that what is proved of it speaks
/// of its count alone.
#[derive(Drop)]
pub struct HostSink<'a, P> {
    rt: &'a P,
    faults: u64,
}

impl<P: Print> HostSink<'_, P> {
    /// Writes to what `rt` prints on. No fault is counted yet.
    pub fn new(rt: &P) -> HostSink<'_, P>
        ensures { ⟦<HostSink<'static, P> as Sink>⟧.faults result ≡ 0 }
    {
        HostSink { rt, faults: 0 }
    }
}

impl<P: Print> Sink for HostSink<'_, P> {
    ghost taken = { λ _. None };

    ghost faults = { λ sink. sink.faults };

    /// Failed where the output is closed or full, or takes nothing.
    fn write(&mut self, piece: &[u8]) -> Result<u64, SinkFault> {
        let mut output = io::writer(self.rt);
        let result = write_front(&mut output, piece);
        if result == Err(SinkFault::Failed) {
            self.faults = self.faults.saturating_add(1);
        }
        result
    }
}

/// One write that took at least one byte of `piece`, tried again where a signal interrupts it.
pub(crate) fn write_front<W: Write>(output: &mut W, piece: &[u8]) -> Result<u64, SinkFault>
    requires { 0 < length piece.now }
    ensures counted { CountsFront piece.now result }
    ensures took { WriteAppends (W.contents output.old) (W.contents output.new) result piece.now }
{
    for _ in 0..u64::MAX {
        match output.write(piece) {
            Ok(0) => return Err(SinkFault::Failed),
            Ok(count) => return Ok(count as u64),
            Err(error) => {
                if error.kind() != ErrorKind::Interrupted {
                    return Err(SinkFault::Failed);
                }
            }
        }
    }
    Err(SinkFault::Failed)
}
