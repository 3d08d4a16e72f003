//! The work on some contents.
ghost use Rattle.std.specs.Prelude.{◌≤◌, IfErr, IfOk, OnOk, length};
ghost use Rattle.lane_work.specs.Sizes as domain;
ghost use Rattle.lane_work.specs.Work.{IsWork};
ghost use Rattle.file_work.specs.Contents.{bytes_in, bytes_of};
ghost use Rattle.file_work.specs.Cuts.{IsWhyUncutOf};
ghost use Rattle.file_work.specs.Limits.{IsWithinLimits, IsWorkOn, most_bytes, most_files};

use crate::cutting::cut_files;
use crate::refused::Refused;
use lane_work::{Work, is_within_limits};
use std::alloc::Global;

/// The work on these contents, if one domain serves it. Linear in the bytes.
pub fn work_on<S>(alloc: Global, rounds: u64, contents: Vec<Vec<u8>>) -> Result<Work, Refused<S>>
    requires rounds { (1 ≤ rounds) × (rounds ≤ 1000) }
    requires some { 1 ≤ length contents.items }
    requires few { length contents.items ≤ most_files }
    requires bytes { bytes_in (bytes_of contents.items) ≤ most_bytes }
    ensures work { IfOk result IsWork }
    ensures on { IfOk result (IsWorkOn rounds (bytes_of contents.items)) }
    ensures domain { IfOk result domain.IsWithinLimits }
    ensures within { OnOk result (IsWithinLimits rounds (bytes_of contents.items)) }
    ensures why { IfErr result (IsWhyUncutOf rounds (bytes_of contents.items)) }
{
    let files = cut_files(alloc, contents)?;
    let work = Work { files, rounds };
    if !is_within_limits(&work) {
        return Err(Refused::TooLarge);
    }
    Ok(work)
}
