ghost use Rattle.std.specs.Prelude.{◌≡◌, ◌≢◌, ℕ, ◌≤◌, List, false};
ghost use Rattle.std.specs.declared.option.Option.{Option};
ghost use Rattle.std.specs.Io.{ReadsAtMost};
ghost use Rattle.std_io.specs.IoError.{error_kind};
ghost use Rattle.std_io.specs.declared.io.kind.ErrorKind.TheVariants as kinds;
ghost use Rattle.std.specs.Io.KnownBytes.{ReadConsumes};
ghost use Rattle.lane_gate.specs.Causes.{Rose};
ghost use Rattle.lane_gate.specs.Reads.{is_too_long};

use crate::files::FileFault;
use std::io::{Error, ErrorKind, Read};

/// A reader of bytes that counts its faults.
pub(crate) trait Source {
    // The bytes that it has left, where it tells them.
    ghost left: { Self → Option (List ℕ) };

    ghost faults: { Self → ℕ };

    /// Reads some bytes into the front of `block` and answers how many, 0 only at the end.
    fn read(&mut self, block: &mut [u8]) -> Result<usize, FileFault>
        ensures bound { ReadsAtMost result block.new }
        ensures bytes { ReadConsumes (left self.old) (left self.new) result block.new }
        ensures faults_last { faults self.old ≤ faults self.new }
        ensures failed { result ≡ Err FileFault.Failed → Rose (faults self.old) (faults self.new) }
        ensures within { is_too_long result ≡ false };
}

/// Any reader, with a count of the errors that it gave.
#[derive(Drop)]
pub(crate) struct Counted<R> {
    pub reader: R,
    pub faults: u64,
}

impl<R: Read> Source for Counted<R> {
    ghost left = { λ source. R.remaining source.reader };

    ghost faults = { λ source. source.faults };

    fn read(&mut self, block: &mut [u8]) -> Result<usize, FileFault> {
        match read_some(&mut self.reader, block) {
            Ok(count) => Ok(count),
            Err(fault) => {
                self.faults = self.faults.saturating_add(1);
                Err(fault)
            }
        }
    }
}

// One read, tried again where a signal interrupts it.
fn read_some<R: Read>(source: &mut R, block: &mut [u8]) -> Result<usize, FileFault>
    ensures bound { ReadsAtMost result block.new }
    ensures bytes { ReadConsumes
        (R.remaining source.old) (R.remaining source.new) result block.new }
    ensures within { is_too_long result ≡ false }
{
    for _ in 0..u64::MAX {
        match source.read(block) {
            Ok(count) => return Ok(count),
            Err(error) => {
                if error.kind() != ErrorKind::Interrupted {
                    return Err(fault_of(&error));
                }
            }
        }
    }
    Err(FileFault::Failed)
}

/// What an error of the host means for a read: that there was no memory, or that the read failed.
pub(crate) fn fault_of(error: &Error) -> FileFault
    ensures memory { error_kind error.now ≡ kinds.OutOfMemory → result ≡ FileFault.OutOfMemory }
    ensures other { error_kind error.now ≢ kinds.OutOfMemory → result ≡ FileFault.Failed }
{
    match error.kind() {
        ErrorKind::OutOfMemory => FileFault::OutOfMemory,
        _ => FileFault::Failed,
    }
}
