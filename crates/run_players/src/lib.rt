//! Runs of the word program for tests: a command line over files and a sink in memory that fail where they are told to.
//!
//! A run is `run` of `cdrc_run` on the words of a line; what the sink took is handed back with how it ended. The rule
//! that is kept: none of its own. Nothing is promised of how a run ends.
//!
//! ```text
//! ended(&rt, alloc, "words --lanes 2 f g", &[], 99, &[], &Open)?     // the end, and what was written
//! ```
#![tactic(auto)]

ghost use Rattle.std.specs.Prelude.{◌<◌};

use cdrc_run::run;
pub use cdrc_run::{End, Why};
use std::alloc::{AllocError, Global};
use std::sync::Wait;
use std::thread::Threads;
pub use words_work::{Gate, MemFiles, MemSink, Open};

/// The files of these runs, by their names.
const FILES: [(&str, &str); 5] = [
    ("f", "a b a"),
    ("g", "c b d"),
    ("s", "heap 1 0 0\nmake a 1\n"),
    ("r", "heap 1 0 0\nmake a 1\ndrop z"),
    ("t", "shape 1 1 0 0 4\n0 claim 0\n0 arm\n0 start"),
];

/// The report of `f` and `g`.
pub const TWO: &str = "2 1 a\n2 2 b\n1 1 c\n1 1 d\nfiles 2 pieces 6 distinct 4\n\
    held live 4 deferred 0 cyclic 0 bytes 4\nfreed live 0 deferred 0 cyclic 0 bytes 0\n";

/// The words of a line, which stand between single spaces.
pub fn words_of(alloc: Global, line: &str) -> Result<Vec<String>, AllocError> {
    let mut words = Vec::new(alloc);
    for word in line.split(' ') {
        words.push(String::from_str(alloc, word)?)?;
    }
    Ok(words)
}

/// These files, of whose reads those of these numbers fail.
pub fn files_of(
    alloc: Global,
    rows: &[(&str, &str)],
    failing: &[u64],
) -> Result<MemFiles, AllocError> {
    let mut entries = Vec::new(alloc);
    for (name, content) in rows {
        let content = Vec::from_slice(alloc, content.as_bytes())?;
        entries.push((String::from_str(alloc, *name)?, content))?;
    }
    Ok(MemFiles::new(entries, Vec::from_slice(alloc, failing)?))
}

/// How a run of the line ends over these files, of whose reads those of these numbers fail, and a sink that takes at
/// most so many bytes a write and fails at the writes of these numbers; and what the sink took.
pub fn ended<R: Threads + Wait + Sync, G: Gate + Sync>(
    rt: &R,
    alloc: Global,
    line: &str,
    failing_reads: &[u64],
    most: u64,
    failing_writes: &[u64],
    gate: &G,
) -> Result<(End, Vec<u8>), AllocError>
    requires { 0 < most }
{
    let words = words_of(alloc, line)?;
    let mut files = files_of(alloc, &FILES, failing_reads)?;
    let mut sink = MemSink::new(alloc, most, Vec::from_slice(alloc, failing_writes)?);
    let end = run(rt, alloc, &words, &mut files, &mut sink, gate);
    Ok((end, Vec::from_slice(alloc, sink.taken())?))
}
