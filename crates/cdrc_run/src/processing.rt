//! A run for a process whose words, files, output and standard error are given.
ghost use Rattle.std.specs.Prelude.{ℕ, ◌≡◌, ◌≢◌, ◌⊎◌, IfErr, IfOk, OnErr, Option, Some, map, string_bytes};
ghost use Rattle.cdrc_run.specs.Processes.{EndsRun, EndsUnasked};
ghost use Rattle.cdrc_run.specs.Jobs.{AsksJob, HasTooManyFiles, IsCommand, Job};
ghost use Rattle.cdrc_run.specs.Statuses.{IsStatus, line_for};

use crate::explaining::{exit_status, explain};
use crate::running::run;
use cdrc_scripts::PairKind;
use command_line::PayloadKind;
use std::alloc::Global;
use std::io::{Eprint, ErrorKind};
use std::sync::Wait;
use std::thread::Threads;
use words_work::{Files, Gate, NodeKind, RecordKind, Sink};

/// Where the line for a status goes. A contract sees for which status one was handed over last.
pub trait StatusLines {
    ghost told: { Self → Option ℕ };

    /// Writes the line for a status.
    fn tell(&mut self, status: u8, line: &str)
        requires { line.now ≡ line_for status }
        ensures { told self.new ≡ Some status };
}

/// Standard error.
#[derive(Drop)]
pub struct HostLines<'a, P> {
    rt: &'a P,
    told: Option<u8>,
}

impl<P: Eprint> HostLines<'_, P> {
    /// Writes to what `rt` writes complaints on.
    pub fn new(rt: &P) -> HostLines<'_, P> {
        HostLines { rt, told: None }
    }
}

impl<P: Eprint> StatusLines for HostLines<'_, P> {
    ghost told = { λ lines. lines.told };

    /// Nobody is told where standard error can't be written.
    fn tell(&mut self, status: u8, line: &str) {
        let _ = self.rt.eprintln(line);
        self.told = Some(status);
    }
}

/// Runs the program for a process that has these words, or none for this cause, and answers its exit status: that of
/// the run; where the words can't be had, 9 for an allocation failure, and else 2. For a status other than 0 it hands
/// over the line of that status. Its steps are those of the run.
pub fn process<R: Threads + Wait + Sync, F: Files, K: Sink, G: Gate + Sync, L: StatusLines>(
    rt: &R,
    alloc: Global,
    words: Result<Vec<String>, ErrorKind>,
    files: &mut F,
    sink: &mut K,
    gate: &G,
    lines: &mut L,
) -> u8
    ensures status { IsStatus result }
    ensures ran { IfOk words (λ given.
        EndsRun ⟦<PairKind<NodeKind, RecordKind> as PayloadKind>⟧.fits
        (map string_bytes given.items)
        (record {
          told = F.told files.old;
          counts = record {
            faults = F.faults files.old;
            faults_now = F.faults files.new;
            overlong = F.overlong files.old;
            overlong_now = F.overlong files.new;
          };
        })
        (record {
          before = K.taken sink.old;
          now = K.taken sink.new;
          faults = K.faults sink.old;
          faults_now = K.faults sink.new;
        }) result) }
    ensures unasked { IfErr words (λ kind. EndsUnasked kind result) }
    ensures untouched { OnErr words ((files.new ≡ files.old) × (sink.new ≡ sink.old)) }
    ensures unread { IfOk words (λ given. (IsCommand (map string_bytes given.items) → ⊥)
        → files.new ≡ files.old) }
    ensures many { IfOk words (λ given. (job : Job)
        → AsksJob (map string_bytes given.items) job → HasTooManyFiles job
        → ((result ≡ 5) ⊎ (result ≡ 9)) × (files.new ≡ files.old)) }
    ensures told { result ≢ 0 → L.told lines.new ≡ Some result }
    ensures untold { result ≡ 0 → lines.new ≡ lines.old }
{
    let outcome = match words {
        Ok(words) => Ok(run(rt, alloc, &words, files, sink, gate).status),
        Err(kind) => Err(kind),
    };
    let status = exit_status(outcome);
    if status != 0 {
        lines.tell(status, explain(status));
    }
    status
}
