//! `word_report FILE..` prints the report of the words of its files, counted once on two lanes: what `cdrc_words words`
//! prints of them, by the same call, in a program that is compiled in half the time, since it reads no options.
//!
//! It is proved that the call's conditions hold. What it answers is printed without a clause of this program's; it
//! doesn't say which refusal came, and it doesn't promise that a run ends.
//!
//! ```text
//! word_report a.txt b.txt
//! ```
#![tactic(auto)]

ghost use Rattle.std.specs.Prelude.{◌≤◌, IfSome, length};
ghost use Rattle.words_work.specs.Limits.{IsPlan, names_of, plan_of};

use std::io::Write;
use std::process::ExitCode;
use std::rt::Files;
use std::sync::Wait;
use std::thread::Threads;
use std::{env, io};
use words_work::{
    Deleter, HostFiles, NodeKind, Open, PairKind, PayloadKind, Protect, RecordKind, WordsArgs,
    words_work,
};

/// The files that the command line names, one at least, on two lanes.
fn asked(rt: &HostRuntime) -> Option<WordsArgs>
    ensures some { IfSome result (λ args. 1 ≤ length (names_of args)) }
    ensures plan { IfSome result (λ args. IsPlan (plan_of args)) }
{
    let names: Vec<String> = env::args(rt).ok()?.skip(1).collect(rt.alloc()).ok()?;
    if names.is_empty() {
        return None;
    }
    Some(WordsArgs {
        names,
        lanes: 2,
        rounds: 1,
        slots: None,
        double: false,
        protect: Protect::Announce,
    })
}

/// The report of these files, if it came to one.
fn report<R: Files + AllocGlobal + Threads + Wait + Sync>(
    rt: &R,
    args: &WordsArgs,
) -> Option<Vec<u8>>
    requires some { 1 ≤ length (names_of args.now) }
    requires plan { IsPlan (plan_of args.now) }
{
    let weigh: Deleter<PairKind<NodeKind, RecordKind>, _> = Deleter::keep(|payload: &[u64; 16]| {
        <PairKind<NodeKind, RecordKind> as PayloadKind>::weigh(payload)
    });
    let mut files = HostFiles::new(rt);
    let done = words_work(rt, rt.alloc(), args, &mut files, &Open, &weigh).ok()?;
    Some(done.bytes)
}

fn main(rt: HostRuntime) -> ExitCode {
    let Some(args) = asked(&rt) else {
        let _ = rt.eprintln("word_report: one or more files");
        return ExitCode::from(2);
    };
    let Some(text) = report(&rt, &args) else {
        let _ = rt.eprintln("word_report: no report was made");
        return ExitCode::from(1);
    };
    match io::writer(&rt).write_all(&text) {
        Ok(()) => ExitCode::SUCCESS,
        Err(_) => ExitCode::from(1),
    }
}
