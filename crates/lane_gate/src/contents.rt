ghost use Rattle.std.specs.Prelude.{◌≡◌, ◌++◌, ◌<◌, length, OnOk, OnErr, nat_lt, false};
ghost use Rattle.std.specs.Option.{option_copied};
ghost use Rattle.lane_gate.specs.Contents.{content_of, entries_of};
ghost use Rattle.lane_gate.specs.Reads.{is_failed, is_too_long};

use crate::files::FileFault;

#[tactic(auto, using(crate::proofs::FirstEntry::found_at, crate::proofs::FirstEntry::passed_at))]
/// The first content under that name.
pub(crate) fn find<'a>(entries: &'a [(String, Vec<u8>)], name: &str) -> Option<&'a [u8]>
    ensures { option_copied result ≡ content_of (entries_of entries.now) name.now }
{
    for entry in entries {
        if entry.0.as_str() == name {
            return Some(entry.1.as_slice());
        }
    }
    None
}

/// Appends a content that is within the limit. Nothing is appended with a refusal.
pub(crate) fn append(content: &[u8], out: &mut Vec<u8>, limit: u64) -> Result<(), FileFault>
    ensures appended { OnOk result (out.new.items ≡ out.old.items ++ content.now) }
    ensures kept { OnErr result (out.new.items ≡ out.old.items) }
    ensures too_long { is_too_long result ≡ nat_lt limit (length content.now) }
    ensures failed { is_failed result ≡ false }
{
    if content.len() as u64 > limit {
        return Err(FileFault::TooLong);
    }
    out.extend_from_slice(content)?;
    Ok(())
}
