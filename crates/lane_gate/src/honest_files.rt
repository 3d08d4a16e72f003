ghost use Rattle.std.specs.Prelude.{◌≡◌, ℕ, ◌≤◌, length, List, OnOk, OnErr, Some, false, nat_lt};
ghost use Rattle.lane_gate.specs.Causes.{counting};
ghost use Rattle.lane_gate.specs.Contents.{entries_of};
ghost use Rattle.lane_gate.specs.HonestFiles.{NeverFailingFiles, content_or_empty};
ghost use Rattle.lane_gate.specs.Reads.{is_failed, is_too_long, GrewByTold};

use crate::contents::{append, find};
use crate::files::{FileFault, Files};
use std::marker::Model;

/// Files in memory, of which no call fails.
#[derive(Drop)]
pub struct HonestFiles {
    entries: Vec<(String, Vec<u8>)>,
    overlong: u64,
}

impl Model for HonestFiles {
    ghost Value = { NeverFailingFiles };

    ghost view = { λ files. record {
      entries = entries_of files.entries.items;
      overlong = files.overlong;
    } };
}

impl HonestFiles {
    /// Holds the contents `entries`, by name. The first entry of a name counts, and a name that is
    /// no entry has empty content.
    pub fn new(entries: Vec<(String, Vec<u8>)>) -> HonestFiles
        ensures { result ≡ record { entries = entries_of entries.items; overlong = 0 } }
    {
        HonestFiles {
            entries,
            overlong: 0,
        }
    }
}

impl Files for HonestFiles {
    ghost told = { λ files name. Some (content_or_empty files name) };

    ghost faults = { λ _. 0 };

    ghost overlong = { λ files. files.overlong };

    /// Never Failed; TooLong exactly where the content is longer than `limit`. Looks the name up
    /// from the first entry on, and copies the content once.
    fn read(&mut self, name: &str, out: &mut Vec<u8>, limit: u64) -> Result<(), FileFault>
        ensures never_failed { is_failed result ≡ false }
        ensures exactly_too_long { is_too_long result
            ≡ nat_lt limit (length (content_or_empty self.old name.now)) }
        ensures appended_told { OnOk result
            (GrewByTold (Some (content_or_empty self.old name.now)) limit
            out.old.items out.new.items) }
        ensures kept { OnErr result (out.new.items ≡ out.old.items) }
        ensures counts { self.new ≡ record self.old {
          overlong = counting (is_too_long result) self.old.overlong;
        } }
        ensures overlong_last { self.old.overlong ≤ self.new.overlong }
    {
        let result = append(find(&self.entries, name).unwrap_or(&[]), out, limit);
        if result == Err(FileFault::TooLong) {
            self.overlong = self.overlong.saturating_add(1);
        }
        result
    }
}
