//! The top call.
ghost use Rattle.std.specs.Prelude.{◌≡◌, ◌≢◌, ◌⊎◌, map, string_bytes};
ghost use Rattle.cdrc_run.specs.Ends.{Ends};
ghost use Rattle.cdrc_run.specs.Jobs.{AsksJob, HasRanges, HasTooManyFiles, IsCommand, Job, job_of};
ghost use Rattle.cdrc_run.specs.Statuses.{IsStatus};

use crate::ending::{end_without, refused_end, written_end};
use crate::jobs::output_of;
use crate::outcome::{End, Why};
use cdrc_scripts::PairKind;
use command_line::{PayloadKind, Request, request};
use std::alloc::Global;
use std::sync::Wait;
use std::thread::Threads;
use words_work::{Files, Gate, NodeKind, RecordKind, Sink};

/// Does what the words of the command line say: counts the words of files, runs a script or a list of steps, draws
/// words, or draws words and counts them. It offers the output to the sink.
///
/// The status is 0 where the work was done; 2 exactly where the words aren't understood; 3 only where the source's
/// count of faults rose in this call; 4 only where the sink's did; 5 exactly where a limit is passed, and for more than
/// 4,096 files before any is read; 6 only where `--slots` asks for fewer slots than serve, and a seat found each one
/// taken; 7 where a seat had no add left; 8 where a line of a script or of steps is refused, which the output's last
/// line tells; 9 where there was no memory, which may come in place of any. Over a source that doesn't tell a content,
/// what is said of it is said of some content.
///
/// With 0 and 8 the sink took the whole output, with 4 a prefix of it, with 9 a prefix or nothing, and else nothing.
///
/// `why` is the evidence. Where words were counted, with 0 and 4: seat 0 of their domain, after all other seats have
/// left, and what each seat popped; with 6 and 7 the seat that was refused. With 0 and 8 the seat of a script's domain,
/// if the script's first line opened one. Else it is nothing. It may wait for other threads.
pub fn run<R: Threads + Wait + Sync, F: Files, K: Sink, G: Gate + Sync>(
    rt: &R,
    alloc: Global,
    words: &[String],
    files: &mut F,
    sink: &mut K,
    gate: &G,
) -> End
    ensures statuses { IsStatus result.status }
    ensures usage { result.status ≡ 2 → ¬ (IsCommand (map string_bytes words.now)) }
    ensures usage_exactly { ¬ (IsCommand (map string_bytes words.now)) →
        ((result.status ≡ 2) ⊎ (result.status ≡ 9)) × (result.why ≡ Why.Nothing)
        × (K.taken sink.new ≡ K.taken sink.old) × (files.new ≡ files.old) }
    ensures ends { (job : Job) → AsksJob (map string_bytes words.now) job →
        Ends ⟦<PairKind<NodeKind, RecordKind> as PayloadKind>⟧.fits job
        (record {
          told = F.told files.old;
          counts = record {
            faults = F.faults files.old;
            faults_now = F.faults files.new;
            overlong = F.overlong files.old;
            overlong_now = F.overlong files.new;
          };
        })
        (record {
          before = K.taken sink.old;
          now = K.taken sink.new;
          faults = K.faults sink.old;
          faults_now = K.faults sink.new;
        }) result }
    ensures many { (job : Job) → AsksJob (map string_bytes words.now) job → HasTooManyFiles job
        → (result.status ≡ 5) ⊎ (result.status ≡ 9) }
    ensures unread { (job : Job) → AsksJob (map string_bytes words.now) job
        → HasTooManyFiles job → files.new ≡ files.old }
{
    match request(alloc, words) {
        Ok(Some(request)) => do_request(rt, alloc, &request, files, sink, gate),
        Ok(None) => end_without(2),
        Err(_) => end_without(9),
    }
}

/// Does what is asked, and offers the output to the sink.
fn do_request<R: Threads + Wait + Sync, F: Files, K: Sink, G: Gate + Sync>(
    rt: &R,
    alloc: Global,
    request: &Request,
    files: &mut F,
    sink: &mut K,
    gate: &G,
) -> End
    requires ranges { HasRanges request.now }
    ensures statuses { IsStatus result.status }
    ensures ends { Ends ⟦<PairKind<NodeKind, RecordKind> as PayloadKind>⟧.fits (job_of request.now)
        (record {
          told = F.told files.old;
          counts = record {
            faults = F.faults files.old;
            faults_now = F.faults files.new;
            overlong = F.overlong files.old;
            overlong_now = F.overlong files.new;
          };
        })
        (record {
          before = K.taken sink.old;
          now = K.taken sink.new;
          faults = K.faults sink.old;
          faults_now = K.faults sink.new;
        }) result }
    ensures many { HasTooManyFiles (job_of request.now) → result.status ≡ 5 }
    ensures unread { HasTooManyFiles (job_of request.now) → files.new ≡ files.old }
{
    match output_of(rt, alloc, request, files, gate) {
        Ok(output) => written_end(output, sink),
        Err(refusal) => refused_end(alloc, refusal),
    }
}
