//! How the contents of files are read.
ghost use Rattle.std.specs.Prelude.{◌≡◌, ◌<◌, ◌≤◌, ℕ, List, IfErr, IfOk, IfSome, OnOk, length, map, string_bytes};
ghost use Rattle.file_work.specs.Contents.{AreContents, IsContent, bytes_in, bytes_of};
ghost use Rattle.file_work.specs.Limits.{most_bytes, most_files};
ghost use Rattle.file_work.specs.Reads.{IsWhyNoContents, IsWhyOneUnread, IsWhyUnread};

use crate::refused::Refused;
use lane_gate::{FileFault, Files};
use std::alloc::Global;

/// The most files of one run.
const MOST_FILES: usize = 4096;

/// The most bytes of all files together, and of a file of lines.
pub const MOST_BYTES: u64 = 67_108_864;

/// The content of a file of at most so many bytes. Read comes only where the source's count of faults rose in the call,
/// and TooLarge only where the file was found to be longer. One read.
pub fn read_file<F: Files, S>(
    alloc: Global,
    files: &mut F,
    name: &str,
    limit: u64,
) -> Result<Vec<u8>, Refused<S>>
    ensures content { IfOk result (λ content.
        IsContent (F.told files.old name.now) content.items) }
    ensures within { IfOk result (λ content. length content.items ≤ limit) }
    ensures why { IfErr result (IsWhyOneUnread (F.told files.old name.now) limit (record {
      faults = F.faults files.old;
      faults_now = F.faults files.new;
      overlong = F.overlong files.old;
      overlong_now = F.overlong files.new;
    })) }
    ensures tells { (other : List ℕ) → F.told files.new other ≡ F.told files.old other }
    ensures faults_last { F.faults files.old ≤ F.faults files.new }
    ensures overlong_last { F.overlong files.old ≤ F.overlong files.new }
{
    let mut content = Vec::new(alloc);
    match files.read(name, &mut content, limit) {
        Ok(()) => Ok(content),
        Err(FileFault::Failed) => Err(Refused::Read),
        Err(FileFault::TooLong) => Err(Refused::TooLarge),
        Err(FileFault::OutOfMemory) => Err(Refused::OutOfMemory),
    }
}

/// The contents of the files with these names, in order, of at most 67,108,864 bytes together. It is refused at the
/// first file that can't be read, or has more bytes than are left. A read for each file.
pub fn read_files<F: Files, S>(
    alloc: Global,
    files: &mut F,
    names: &[String],
) -> Result<Vec<Vec<u8>>, Refused<S>>
    ensures contents { IfOk result (λ contents.
        AreContents (F.told files.old) (map string_bytes names.now) (bytes_of contents.items)) }
    ensures within { IfOk result (λ contents. bytes_in (bytes_of contents.items) ≤ most_bytes) }
    ensures why { IfErr result (IsWhyUnread (F.told files.old) (map string_bytes names.now) (record {
      faults = F.faults files.old;
      faults_now = F.faults files.new;
      overlong = F.overlong files.old;
      overlong_now = F.overlong files.new;
    })) }
    ensures tells { (other : List ℕ) → F.told files.new other ≡ F.told files.old other }
    ensures faults_last { F.faults files.old ≤ F.faults files.new }
    ensures overlong_last { F.overlong files.old ≤ F.overlong files.new }
{
    let mut contents = Vec::with_capacity(alloc, names.len())?;
    let mut left = MOST_BYTES;
    for name in names {
        let content = read_file(alloc, files, name.as_str(), left)?;
        left -= content.len() as u64;
        contents.push_reserved(content);
    }
    Ok(contents)
}

/// The contents of the files with these names, as `read_files` has them, if there are at most 4,096. More are refused
/// as TooLarge before any is read.
pub fn read_named<F: Files, S>(
    alloc: Global,
    files: &mut F,
    names: &[String],
) -> Result<Vec<Vec<u8>>, Refused<S>>
    ensures few { OnOk result (length names.now ≤ most_files) }
    ensures contents { IfOk result (λ contents.
        AreContents (F.told files.old) (map string_bytes names.now) (bytes_of contents.items)) }
    ensures within { IfOk result (λ contents. bytes_in (bytes_of contents.items) ≤ most_bytes) }
    ensures why { IfErr result (IsWhyNoContents (F.told files.old) (map string_bytes names.now)
        (record {
          faults = F.faults files.old;
          faults_now = F.faults files.new;
          overlong = F.overlong files.old;
          overlong_now = F.overlong files.new;
        })) }
    ensures many { most_files < length names.now → result ≡ Err Refused.TooLarge }
    ensures unread { most_files < length names.now → files.new ≡ files.old }
    ensures tells { (other : List ℕ) → F.told files.new other ≡ F.told files.old other }
    ensures faults_last { F.faults files.old ≤ F.faults files.new }
    ensures overlong_last { F.overlong files.old ≤ F.overlong files.new }
{
    if MOST_FILES < names.len() {
        return Err(Refused::TooLarge);
    }
    read_files(alloc, files, names)
}
