//! A run for a process.
ghost use Rattle.std.specs.Process.{exit_status as status_of_process};
ghost use Rattle.cdrc_run.specs.Statuses.{IsStatus};

use crate::processing::{HostLines, process};
use std::env;
use std::io::{Eprint, ErrorKind, Print};
use std::process::ExitCode;
use std::rt::{Env, Files};
use std::sync::Wait;
use std::thread::Threads;
use words_work::{HostFiles, HostSink, Open};

/// Runs the program for a process: the words are those of the command line after the program's name, the source is the
/// host's files, the sink is standard output, and the gate holds nobody. It writes the line for a status other than 0
/// to standard error. The exit code is the status of the run; where the words can't be had, it is 9 for an allocation
/// failure, and else 2.
///
/// All that it does beside is to take the words and to hand over the host's parts: `process` does the rest. Its steps
/// are those of the run.
pub fn start<R: Env + Files + Print + Eprint + AllocGlobal + Threads + Wait + Sync>(
    rt: &R,
) -> ExitCode
    ensures { IsStatus (status_of_process result) }
{
    let mut files = HostFiles::new(rt);
    let mut sink = HostSink::new(rt);
    let mut lines = HostLines::new(rt);
    let words = command_line(rt);
    let status = process(
        rt,
        rt.alloc(),
        words,
        &mut files,
        &mut sink,
        &Open,
        &mut lines,
    );
    ExitCode::from(status)
}

/// The words after the program's name.
fn command_line<R: Env + AllocGlobal>(rt: &R) -> Result<Vec<String>, ErrorKind> {
    match env::args(rt) {
        Ok(arguments) => arguments
            .skip(1)
            .collect(rt.alloc())
            .map_err(|_| ErrorKind::OutOfMemory),
        Err(error) => Err(error.kind()),
    }
}
