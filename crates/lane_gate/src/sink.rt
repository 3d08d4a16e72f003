ghost use Rattle.std.specs.Prelude.{◌≡◌, ℕ, ◌<◌, ◌≤◌, List, length, OnErr};
ghost use Rattle.std.specs.declared.option.Option.{Option};
ghost use Rattle.lane_gate.specs.Causes.{Rose};
ghost use Rattle.lane_gate.specs.declared.sink.SinkFault.TheVariants.{OutOfMemory};
ghost use Rattle.lane_gate.specs.Writes.{CountsFront, TookFront};

use std::alloc::AllocError;
use thiserror::Error;

/// Why a write was refused.
#[derive(Clone, Copy, PartialEq, Eq, Debug, Error)]
pub enum SinkFault {
    /// The sink failed; its count of faults rose in the call.
    #[error("the write failed")]
    Failed,
    /// There was no memory for what was written.
    #[error("out of memory")]
    OutOfMemory,
}

impl From<AllocError> for SinkFault {
    ghost from_gives = { λ _ fault. fault ≡ OutOfMemory };

    fn from(_error: AllocError) -> SinkFault {
        SinkFault::OutOfMemory
    }
}

/// Where output is written to.
///
/// Contracts see two things of a sink: `taken`, all bytes that it took, where the sink tells them;
/// and `faults`, how many faults it has counted.
pub trait Sink {
    ghost taken: { Self → Option (List ℕ) };

    ghost faults: { Self → ℕ };

    /// Takes the first bytes of `piece` and answers how many, from 1 to its length. The piece isn't
    /// empty. After a refusal nothing more was taken.
    fn write(&mut self, piece: &[u8]) -> Result<u64, SinkFault>
        requires { 0 < length piece.now }
        ensures counted { CountsFront piece.now result }
        ensures took { TookFront (taken self.old) (taken self.new) piece.now result }
        ensures kept { OnErr result (taken self.new ≡ taken self.old) }
        ensures faults_last { faults self.old ≤ faults self.new }
        ensures failed { result ≡ Err SinkFault.Failed → Rose (faults self.old) (faults self.new) };
}
