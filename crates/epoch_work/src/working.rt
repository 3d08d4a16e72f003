//! How contents are counted, and how files are.
ghost use Rattle.std.specs.Prelude.{◌≡◌, ◌≤◌, ℕ, List, IfErr, IfOk, length};
ghost use Rattle.file_work.specs.Contents.{bytes_in, bytes_of};
ghost use Rattle.file_work.specs.Limits.{IsPlan, most_bytes, most_files, names_of, plan_of};
ghost use Rattle.file_work.specs.Outcomes.{Answers, IsWhyUncounted};
ghost use Rattle.epoch_work.specs.Outcomes.{IsCounted, IsFull, IsSpentOn};

use crate::beginning::count_work;
use crate::outcome::{EpochDone, EpochRefused};
use cell_reports::{Deleter, EpochCountError, EpochCounted, Gate, RecordKind};
use file_work::{Files, Plan, WordsArgs, plan_of, read_named, work_on};
use plain_state::PayloadKind;
use std::alloc::Global;
use std::sync::Wait;
use std::thread::Threads;

/// Counts the words of 1 to 4,096 contents of at most 67,108,864 bytes together, as the plan says but for its queue:
/// lanes that open regions have none.
///
/// TooLarge comes exactly where they have more than 1,000,000 pieces in all rounds, or where more than 4,194,304 slots
/// would be needed over a queue, for each piece one and its record's, and two more. Full and Spent come with the seat
/// that was refused while the lanes ran, and Full only where a number of slots is asked for: without one the count
/// begins with as many as these words are likely to need, and anew with as many as serve where they weren't enough.
/// With one lane Full comes only below the slots of the distinct words' records. It may wait for other threads. It
/// takes the steps of `cut`, for each content, and of `count_cells`, twice where it began anew.
pub fn count_contents<R: Threads + Wait + Sync, G: Gate + Sync>(
    rt: &R,
    alloc: Global,
    plan: Plan,
    contents: Vec<Vec<u8>>,
    gate: &G,
) -> Result<EpochDone, EpochRefused>
    requires plan { IsPlan plan }
    requires some { 1 ≤ length contents.items }
    requires few { length contents.items ≤ most_files }
    requires bytes { bytes_in (bytes_of contents.items) ≤ most_bytes }
    ensures done { IfOk result (IsCounted plan (bytes_of contents.items)) }
    ensures why { IfErr result (IsWhyUncounted IsFull IsSpentOn plan (bytes_of contents.items)) }
{
    let weigh: Deleter<RecordKind, _> = Deleter::keep(|payload: &[u64; 16]| RecordKind::weigh(
        payload,
    ));
    let work = work_on(alloc, plan.rounds, contents)?;
    match count_work(rt, alloc, plan, &work, gate, &weigh) {
        Ok(EpochCounted { text, root }) => Ok(EpochDone { bytes: text, root }),
        Err(EpochCountError::OutOfMemory) => Err(EpochRefused::OutOfMemory),
        Err(EpochCountError::Full(seat)) => Err(EpochRefused::Full(seat)),
        Err(EpochCountError::Spent(seat)) => Err(EpochRefused::Spent(seat)),
    }
}

/// Counts the words of named files: reads them in order, each once, and counts their contents as the words of the
/// command line say, on lanes that open regions. It answers their text, and seat 0, which is alone by then.
///
/// Read comes only where the source's count of faults rose in this call. TooLarge comes exactly where a limit is
/// passed: there are more than 4,096 files, which is told before any is read; the files have more than 67,108,864
/// bytes together; their pieces, times the rounds, are more than 1,000,000; or more than 4,194,304 slots would be
/// needed over a queue, for each piece one and its record's, and two more. Full and Spent come with the seat that was
/// refused while the lanes ran. OutOfMemory may come in place of any, but for too many files. It may wait for other
/// threads.
pub fn words_epoch<R: Threads + Wait + Sync, F: Files, G: Gate + Sync>(
    rt: &R,
    alloc: Global,
    args: &WordsArgs,
    files: &mut F,
    gate: &G,
) -> Result<EpochDone, EpochRefused>
    requires plan { IsPlan (plan_of args.now) }
    requires some { 1 ≤ length (names_of args.now) }
    ensures answers { Answers IsCounted IsFull IsSpentOn
        (F.told files.old) (names_of args.now) (plan_of args.now) (record {
          faults = F.faults files.old;
          faults_now = F.faults files.new;
          overlong = F.overlong files.old;
          overlong_now = F.overlong files.new;
        }) (files.new ≡ files.old) result }
    ensures tells { (other : List ℕ) → F.told files.new other ≡ F.told files.old other }
    ensures faults_last { F.faults files.old ≤ F.faults files.new }
    ensures overlong_last { F.overlong files.old ≤ F.overlong files.new }
{
    let contents = read_named(alloc, files, &args.names)?;
    count_contents(rt, alloc, plan_of(args), contents, gate)
}
