ghost use Rattle.std.specs.Prelude.{◌≡◌, ℕ, ◌<◌, ◌≤◌, length, List, IfOk, OnOk, OnErr, None};
ghost use Rattle.lane_gate.specs.Causes.{Rose};
ghost use Rattle.lane_gate.specs.Reads.{GrewWithin};

use crate::files::{FileFault, Files};
use crate::source::{Counted, fault_of};
use crate::stream::read_within;
use std::alloc::{AllocError, Global};
use std::{fs, rt};

/// How many bytes one read asks the host for, unless the limit is nearer.
const BLOCK: usize = 65_536;

/// The host's files, by their paths. It tells no content, so that what is proved of it speaks of
/// its counts alone.
#[derive(Drop)]
pub struct HostFiles<'a, R> {
    rt: &'a R,
    faults: u64,
    overlong: u64,
}

impl<R: rt::Files + AllocGlobal> HostFiles<'_, R> {
    /// Reads the files that `rt` reaches. Nothing is counted yet.
    pub fn new(rt: &R) -> HostFiles<'_, R>
        ensures faults { ⟦<HostFiles<'static, R> as Files>⟧.faults result ≡ 0 }
        ensures overlong { ⟦<HostFiles<'static, R> as Files>⟧.overlong result ≡ 0 }
    {
        HostFiles {
            rt,
            faults: 0,
            overlong: 0,
        }
    }
}

impl<R: rt::Files + AllocGlobal> Files for HostFiles<'_, R> {
    ghost told = { λ _ _. None };

    ghost faults = { λ files. files.faults };

    ghost overlong = { λ files. files.overlong };

    /// Failed where the file can't be opened or a read fails, as that of a folder. TooLong as soon
    /// as `limit + 1` bytes were read, without reading on.
    fn read(&mut self, name: &str, out: &mut Vec<u8>, limit: u64) -> Result<(), FileFault> {
        let result = read_file(self.rt, &mut self.faults, name, out, limit);
        if result == Err(FileFault::TooLong) {
            self.overlong = self.overlong.saturating_add(1);
        }
        result
    }
}

// One read of one file, which counts its faults.
fn read_file<R: rt::Files + AllocGlobal>(
    rt: &R,
    faults: &mut u64,
    name: &str,
    out: &mut Vec<u8>,
    limit: u64,
) -> Result<(), FileFault>
    ensures appended { OnOk result (GrewWithin limit out.old.items out.new.items) }
    ensures kept { OnErr result (out.new.items ≡ out.old.items) }
    ensures faults_last { faults.old ≤ faults.new }
    ensures failed { result ≡ Err FileFault.Failed → Rose faults.old faults.new }
{
    let mut block = new_block(rt.alloc())?;
    match fs::open(rt, name) {
        Ok(reader) => {
            let mut source = Counted {
                reader,
                faults: *faults,
            };
            let result = read_within(&mut source, &mut block, out, limit);
            *faults = source.faults;
            result
        }
        Err(error) => {
            *faults = faults.saturating_add(1);
            Err(fault_of(&error))
        }
    }
}

fn new_block(alloc: Global) -> Result<Vec<u8>, AllocError>
    ensures { IfOk result (λ block. 0 < length block.items) }
{
    vec![in alloc; 0u8; BLOCK]
}
