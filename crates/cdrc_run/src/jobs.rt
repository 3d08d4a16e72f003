//! What each job writes.
ghost use Rattle.std.specs.Prelude.{◌≡◌, ◌<◌, ◌≤◌, IfErr, IfOk, List, ℕ, length};
ghost use Rattle.cdrc_run.specs.Jobs as jobs;
ghost use Rattle.cdrc_run.specs.Jobs.{HasRanges, HasTooManyFiles, job_of};
ghost use Rattle.cdrc_run.specs.Outputs.{IsOutputOf, IsWhyNoOutput, evidence};
ghost use Rattle.words_work.specs.Limits.{most_files, names_of, plan_of};

use crate::drawing::{count_drawn, draw_words};
use crate::outcome::{Output, RefusedSeat, Why};
use crate::refusing::{of_epoch, of_words};
use cdrc_scripts::{Deleter, NoLaw, PairKind, ScriptKind, Scripted, Seat, Written, script};
use cdrc_steps::steps;
use command_line::{PayloadKind, Protect, Request, WordsArgs};
use epoch_work::{EpochDone, words_epoch};
use std::alloc::Global;
use std::sync::Wait;
use std::thread::Threads;
use words_work::{
    Files, Gate, MOST_BYTES, NodeKind, RecordKind, Refused, WordsDone, read_file, words_work,
};

/// The output of what the words of the command line ask for. Too many files are refused before any is read. It may wait
/// for other threads.
pub(crate) fn output_of<R: Threads + Wait + Sync, F: Files, G: Gate + Sync>(
    rt: &R,
    alloc: Global,
    request: &Request,
    files: &mut F,
    gate: &G,
) -> Result<Output, Refused<RefusedSeat>>
    requires ranges { HasRanges request.now }
    ensures output { IfOk result (λ output. IsOutputOf (job_of request.now) (F.told files.old)
        output.text.items output.refused output.why) }
    ensures why { IfErr result (IsWhyNoOutput
        ⟦<PairKind<NodeKind, RecordKind> as PayloadKind>⟧.fits (job_of request.now)
        (F.told files.old) (record {
          faults = F.faults files.old;
          faults_now = F.faults files.new;
          overlong = F.overlong files.old;
          overlong_now = F.overlong files.new;
        })) }
    ensures many { HasTooManyFiles (job_of request.now)
        → result ≡ Err Refused.TooLarge }
    ensures unread { HasTooManyFiles (job_of request.now) → files.new ≡ files.old }
{
    match request {
        Request::Words(args) => count_files(rt, alloc, args, files, gate),
        Request::Script(name) => run_script(alloc, name.as_str(), files),
        Request::Steps(name) => run_steps(alloc, name.as_str(), files),
        Request::Generate(draws) => Ok(draw_words(alloc, *draws)?),
        Request::Bulk(drawn) => count_drawn(rt, alloc, *drawn, gate),
    }
}

/// The text of files, by announcements.
fn count_announced<R: Threads + Wait + Sync, F: Files, G: Gate + Sync>(
    rt: &R,
    alloc: Global,
    args: &WordsArgs,
    files: &mut F,
    gate: &G,
) -> Result<Output, Refused<RefusedSeat>>
    requires ranges { HasRanges (Request.Words args.now) }
    ensures output { IfOk result (λ output.
        IsOutputOf (jobs.count (names_of args.now) (plan_of args.now)) (F.told files.old)
        output.text.items output.refused output.why) }
    ensures why { IfErr result (IsWhyNoOutput
        ⟦<PairKind<NodeKind, RecordKind> as PayloadKind>⟧.fits
        (jobs.count (names_of args.now) (plan_of args.now)) (F.told files.old) (record {
          faults = F.faults files.old;
          faults_now = F.faults files.new;
          overlong = F.overlong files.old;
          overlong_now = F.overlong files.new;
        })) }
    ensures many { most_files < length (names_of args.now)
        → result ≡ Err Refused.TooLarge }
    ensures unread { most_files < length (names_of args.now) → files.new ≡ files.old }
{
    let weigh: Deleter<PairKind<NodeKind, RecordKind>, _> = Deleter::keep(|payload: &[u64; 16]| {
        <PairKind<NodeKind, RecordKind> as PayloadKind>::weigh(payload)
    });
    match words_work(rt, alloc, args, files, gate, &weigh) {
        Ok(
            WordsDone {
                bytes,
                root,
                tallies,
            },
        ) => Ok(Output {
            text: bytes,
            refused: false,
            why: Why::Words(root, tallies),
        }),
        Err(refusal) => Err(of_words(refusal)),
    }
}

/// The text of files, in regions.
fn count_in_regions<R: Threads + Wait + Sync, F: Files, G: Gate + Sync>(
    rt: &R,
    alloc: Global,
    args: &WordsArgs,
    files: &mut F,
    gate: &G,
) -> Result<Output, Refused<RefusedSeat>>
    requires ranges { HasRanges (Request.Words args.now) }
    ensures output { IfOk result (λ output.
        IsOutputOf (jobs.regions (names_of args.now) (plan_of args.now)) (F.told files.old)
        output.text.items output.refused output.why) }
    ensures why { IfErr result (IsWhyNoOutput
        ⟦<PairKind<NodeKind, RecordKind> as PayloadKind>⟧.fits
        (jobs.regions (names_of args.now) (plan_of args.now)) (F.told files.old) (record {
          faults = F.faults files.old;
          faults_now = F.faults files.new;
          overlong = F.overlong files.old;
          overlong_now = F.overlong files.new;
        })) }
    ensures many { most_files < length (names_of args.now)
        → result ≡ Err Refused.TooLarge }
    ensures unread { most_files < length (names_of args.now) → files.new ≡ files.old }
{
    match words_epoch(rt, alloc, args, files, gate) {
        Ok(EpochDone { bytes, root }) => Ok(Output {
            text: bytes,
            refused: false,
            why: Why::Epoch(root),
        }),
        Err(refusal) => Err(of_epoch(refusal)),
    }
}

/// The text of files.
fn count_files<R: Threads + Wait + Sync, F: Files, G: Gate + Sync>(
    rt: &R,
    alloc: Global,
    args: &WordsArgs,
    files: &mut F,
    gate: &G,
) -> Result<Output, Refused<RefusedSeat>>
    requires ranges { HasRanges (Request.Words args.now) }
    ensures output { IfOk result (λ output. IsOutputOf (job_of (Request.Words args.now))
        (F.told files.old) output.text.items output.refused output.why) }
    ensures why { IfErr result (IsWhyNoOutput
        ⟦<PairKind<NodeKind, RecordKind> as PayloadKind>⟧.fits (job_of (Request.Words args.now))
        (F.told files.old) (record {
          faults = F.faults files.old;
          faults_now = F.faults files.new;
          overlong = F.overlong files.old;
          overlong_now = F.overlong files.new;
        })) }
    ensures many { HasTooManyFiles (job_of (Request.Words args.now))
        → result ≡ Err Refused.TooLarge }
    ensures unread { HasTooManyFiles (job_of (Request.Words args.now)) → files.new ≡ files.old }
{
    match args.protect {
        Protect::Announce => count_announced(rt, alloc, args, files, gate),
        Protect::Epoch => count_in_regions(rt, alloc, args, files, gate),
    }
}

/// What a script writes.
fn run_script<F: Files>(
    alloc: Global,
    name: &str,
    files: &mut F,
) -> Result<Output, Refused<RefusedSeat>>
    ensures output { IfOk result (λ output. IsOutputOf (jobs.script name.now) (F.told files.old)
        output.text.items output.refused output.why) }
    ensures why { IfErr result (IsWhyNoOutput
        ⟦<PairKind<NodeKind, RecordKind> as PayloadKind>⟧.fits (jobs.script name.now)
        (F.told files.old) (record {
          faults = F.faults files.old;
          faults_now = F.faults files.new;
          overlong = F.overlong files.old;
          overlong_now = F.overlong files.new;
        })) }
{
    let content = read_file::<F, RefusedSeat>(alloc, files, name, MOST_BYTES)?;
    let Scripted { written, seat } = script(alloc, &content)?;
    let Written { text, refused } = written;
    Ok(Output {
        text,
        refused,
        why: evidence(seat),
    })
}

/// The evidence of a script.
fn evidence(seat: Option<Seat<NoLaw<ScriptKind>>>) -> Why
    ensures { result ≡ evidence seat }
{
    match seat {
        Some(seat) => Why::Script(seat),
        None => Why::Nothing,
    }
}

/// What a list of steps writes.
fn run_steps<F: Files>(
    alloc: Global,
    name: &str,
    files: &mut F,
) -> Result<Output, Refused<RefusedSeat>>
    ensures output { IfOk result (λ output. IsOutputOf (jobs.steps name.now) (F.told files.old)
        output.text.items output.refused output.why) }
    ensures why { IfErr result (IsWhyNoOutput
        ⟦<PairKind<NodeKind, RecordKind> as PayloadKind>⟧.fits (jobs.steps name.now)
        (F.told files.old) (record {
          faults = F.faults files.old;
          faults_now = F.faults files.new;
          overlong = F.overlong files.old;
          overlong_now = F.overlong files.new;
        })) }
{
    let content = read_file::<F, RefusedSeat>(alloc, files, name, MOST_BYTES)?;
    let Written { text, refused } = steps(alloc, &content)?;
    Ok(Output {
        text,
        refused,
        why: Why::Nothing,
    })
}
