ghost use Rattle.std.specs.Prelude.{◌≡◌, ℕ, ◌≤◌, ◌++◌, length, List, OnOk, OnErr, not, ◌&&◌};
ghost use Rattle.lane_gate.specs.Causes.{counting, one_more};
ghost use Rattle.lane_gate.specs.Contents.{content_of, entries_of};
ghost use Rattle.lane_gate.specs.MemFiles.{FailingFiles, fails};
ghost use Rattle.lane_gate.specs.Reads.{is_failed, is_overlong, is_too_long, GrewByTold, OverlongAsTold};

use crate::contents::{append, find};
use crate::files::{FileFault, Files};
use std::marker::Model;

/// Files in memory, of which chosen calls fail.
#[derive(Drop)]
pub struct MemFiles {
    entries: Vec<(String, Vec<u8>)>,
    failing: Vec<u64>,
    calls: u64,
    faults: u64,
    overlong: u64,
}

impl Model for MemFiles {
    ghost Value = { FailingFiles };

    ghost view = { λ files. record {
      entries = entries_of files.entries.items;
      failing = files.failing.items;
      calls = files.calls;
      faults = files.faults;
      overlong = files.overlong;
    } };
}

impl MemFiles {
    /// Holds the contents `entries`, by name. Call number k fails where k stands in `failing`,
    /// counted from 0.
    pub fn new(entries: Vec<(String, Vec<u8>)>, failing: Vec<u64>) -> MemFiles
        ensures { result ≡ record {
          entries = entries_of entries.items;
          failing = failing.items;
          calls = 0;
          faults = 0;
          overlong = 0;
        } }
    {
        MemFiles {
            entries,
            failing,
            calls: 0,
            faults: 0,
            overlong: 0,
        }
    }

    // What the next call answers, before it is counted.
    fn answer(&self, name: &str, out: &mut Vec<u8>, limit: u64) -> Result<(), FileFault>
        ensures failed { is_failed result ≡ fails self.now name.now }
        ensures too_long { is_too_long result ≡ (not (fails self.now name.now)
            && is_overlong (content_of self.now.entries name.now) limit) }
        ensures appended { OnOk result
            (GrewByTold (content_of self.now.entries name.now) limit out.old.items out.new.items) }
        ensures kept { OnErr result (out.new.items ≡ out.old.items) }
        ensures too_long_told { result ≡ Err FileFault.TooLong → OverlongAsTold
            (content_of self.now.entries name.now) limit self.now.faults self.now.faults }
    {
        if self.failing.contains(&self.calls) || self.faults == u64::MAX {
            return Err(FileFault::Failed);
        }
        match find(&self.entries, name) {
            Some(content) => append(content, out, limit),
            None => Err(FileFault::Failed),
        }
    }
}

impl Files for MemFiles {
    ghost told = { λ files name. content_of files.entries name };

    ghost faults = { λ files. files.faults };

    ghost overlong = { λ files. files.overlong };

    /// Looks the name up from the first entry on, and copies the content once.
    ///
    /// Fails exactly where its number stands among those that are to fail, or the name is no entry,
    /// or the count of faults stands at its last value, 2^64 - 1.
    fn read(&mut self, name: &str, out: &mut Vec<u8>, limit: u64) -> Result<(), FileFault>
        ensures exactly_failed { is_failed result ≡ fails self.old name.now }
        ensures exactly_too_long { is_too_long result ≡ (not (fails self.old name.now)
            && is_overlong (content_of self.old.entries name.now) limit) }
        ensures appended_told { OnOk result
            (GrewByTold (content_of self.old.entries name.now) limit out.old.items out.new.items) }
        ensures kept { OnErr result (out.new.items ≡ out.old.items) }
        ensures counts { self.new ≡ record self.old {
          calls = one_more self.old.calls;
          faults = counting (is_failed result) self.old.faults;
          overlong = counting (is_too_long result) self.old.overlong;
        } }
        ensures faults_last { self.old.faults ≤ self.new.faults }
        ensures overlong_last { self.old.overlong ≤ self.new.overlong }
        ensures too_long_told { result ≡ Err FileFault.TooLong → OverlongAsTold
            (content_of self.old.entries name.now) limit self.old.faults self.new.faults }
    {
        let result = self.answer(name, out, limit);
        self.calls = self.calls.saturating_add(1);
        match result {
            Err(FileFault::Failed) => self.faults = self.faults.saturating_add(1),
            Err(FileFault::TooLong) => self.overlong = self.overlong.saturating_add(1),
            _ => {}
        }
        result
    }
}
