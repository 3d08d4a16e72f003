//! `call_times THREADS` times single calls of the library: for each operation it opens a domain, lets so many threads
//! make the calls in a loop on what all of them share, and prints a line `cdrc OP THREADS NS`, where NS is the wall
//! time of one turn in one thread.
//!
//! Thread i, from 1 on, has seat 2i of 2(THREADS + 1), so that no two threads write one cache line: two seats'
//! announcement words share one, and the last seat's the first cells'. With `--neighbours` before THREADS it has seat
//! i of as many, and all else is the same, so that it shows what neighbouring seats cost.
//! Where readers open regions thread i has seat i of THREADS + 1 in both cases, since there no seats' words share one.
//!
//! It is proved that each call is one that its seat may make, and nothing is proved of times.
//!
//! ```text
//! call_times 4
//! call_times --neighbours 4
//! ```
#![tactic(auto)]

ghost use Rattle.std.specs.Prelude.{◌≤◌, IfSome};

mod clock;
mod directory;
mod fault;
mod interning;
mod jobs;
mod queueing;
mod regions;
mod request;

use crate::clock::{Tenths, time};
use crate::fault::Fault;
use crate::interning::time_interns;
use crate::queueing::time_queue;
use crate::regions::time_regions;
use crate::request::{Request, asked};
use region_turns::REGION_OPERATIONS;
use std::alloc::Global;
use std::env;
use std::io::Print;
use std::process::ExitCode;
use std::rt::Clock;
use std::sync::Wait;
use std::thread::Threads;
use turn_loops::OPERATIONS;

/// What the command line asks for.
fn request_of(rt: &HostRuntime) -> Option<Request>
    ensures { IfSome result (λ request. (1 ≤ request.threads) × (request.threads ≤ 15)) }
{
    let words: Vec<String> = env::args(rt).ok()?.skip(1).collect(rt.alloc()).ok()?;
    asked(words.as_slice())
}

/// Times each operation, and prints its line.
fn time_all<R: Print + Clock + Threads + Wait + Sync>(
    rt: &R,
    alloc: Global,
    request: Request,
) -> Result<(), Fault>
    requires { (1 ≤ request.threads) × (request.threads ≤ 15) }
{
    let Request { placing, threads } = request;
    for operation in OPERATIONS {
        let each = time(rt, alloc, operation, placing, threads)?;
        print_line(rt, operation.name(), threads, each)?;
    }
    let each = time_queue(rt, alloc, placing, threads)?;
    print_line(rt, "queue", threads, each)?;
    let each = time_interns(rt, alloc, placing, threads)?;
    print_line(rt, "intern", threads, each)?;
    for operation in REGION_OPERATIONS {
        let each = time_regions(rt, alloc, operation, threads)?;
        print_line(rt, operation.name(), threads, each)?;
    }
    Ok(())
}

/// Prints the line of an operation.
fn print_line<R: Print>(rt: &R, name: &str, threads: u32, each: Tenths) -> Result<(), Fault> {
    let Tenths(tenths) = each;
    println!(rt; "cdrc {name} {threads} {}.{}", tenths / 10, tenths % 10)?;
    Ok(())
}

fn main(rt: HostRuntime) -> ExitCode {
    let Some(request) = request_of(&rt) else {
        let _ = rt.eprintln("call_times: [--neighbours] THREADS, from 1 to 15");
        return ExitCode::from(2);
    };
    match time_all(&rt, rt.alloc(), request) {
        Ok(()) => ExitCode::SUCCESS,
        Err(fault) => {
            let _ = rt.eprintln(fault);
            ExitCode::from(1)
        }
    }
}
