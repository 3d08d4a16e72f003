ghost use Rattle.std.specs.Prelude.{◌≡◌, ℕ, ◌≤◌, List, OnOk, OnErr};
ghost use Rattle.std.specs.declared.option.Option.{Option};
ghost use Rattle.lane_gate.specs.Causes.{Rose};
ghost use Rattle.lane_gate.specs.declared.files.FileFault.TheVariants.{OutOfMemory};
ghost use Rattle.lane_gate.specs.Reads.{GrewWithin, GrewByTold, OverlongAsTold, RefusesOverlong, AcceptsWithin};

use std::alloc::AllocError;
use thiserror::Error;

/// Why a read was refused.
#[derive(Clone, Copy, PartialEq, Eq, Debug, Error)]
pub enum FileFault {
    /// The source failed; its count of faults rose in the call.
    #[error("the read failed")]
    Failed,
    /// The content is longer than the limit; the count of overlong reads rose in the call.
    #[error("the content is too long")]
    TooLong,
    /// There was no memory for the content.
    #[error("out of memory")]
    OutOfMemory,
}

impl From<AllocError> for FileFault {
    ghost from_gives = { λ _ fault. fault ≡ OutOfMemory };

    fn from(_error: AllocError) -> FileFault {
        FileFault::OutOfMemory
    }
}

/// Where contents are read from, by name.
///
/// Contracts see three things of a source: `told`, the content by the bytes of its name, where the
/// source tells it; `faults`, how many faults it has counted; and `overlong`, how many contents it
/// found to be longer than was asked for. A source that tells nothing, as the host's files, is
/// spoken of by its counts alone.
pub trait Files {
    ghost told: { Self → List ℕ → Option (List ℕ) };

    ghost faults: { Self → ℕ };

    ghost overlong: { Self → ℕ };

    /// Appends the content of `name`, of at most `limit` bytes, to `out`. After a refusal `out` is
    /// as before.
    ///
    /// Over a told content, and where no fault came, the answer is settled by its length: TooLong
    /// beyond `limit`, else Ok. `OutOfMemory` may come in place of either.
    fn read(&mut self, name: &str, out: &mut Vec<u8>, limit: u64) -> Result<(), FileFault>
        ensures appended { OnOk result (GrewWithin limit out.old.items out.new.items) }
        ensures appended_told { OnOk result
            (GrewByTold (told self.old name.now) limit out.old.items out.new.items) }
        ensures kept { OnErr result (out.new.items ≡ out.old.items) }
        ensures tells { (other : List ℕ) → told self.new other ≡ told self.old other }
        ensures faults_last { faults self.old ≤ faults self.new }
        ensures overlong_last { overlong self.old ≤ overlong self.new }
        ensures failed { result ≡ Err FileFault.Failed → Rose (faults self.old) (faults self.new) }
        ensures too_long { result ≡ Err FileFault.TooLong →
            Rose (overlong self.old) (overlong self.new) }
        ensures too_long_told { result ≡ Err FileFault.TooLong →
            OverlongAsTold (told self.old name.now) limit (faults self.old) (faults self.new) }
        ensures refuses { RefusesOverlong (told self.old name.now) limit
            (faults self.old) (faults self.new) result }
        ensures accepts { AcceptsWithin (told self.old name.now) limit
            (faults self.old) (faults self.new) result };
}
