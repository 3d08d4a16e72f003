//! `example_threads` runs each of the three small clients of a domain by two threads, and prints a line for each: a
//! setting that both store and read, a stack that both push and pop, a cache that both ask before they make a value
//! anew.
//!
//! Once the threads are done their seats leave to seat 0, which destroys all that may be destroyed, audits the domain
//! and closes it.
//!
//! It is proved that each call is one that its seat may make, so that what was read, popped and recalled was stored,
//! pushed and remembered; the lines count what would tell otherwise, and the objects that an audit found at the end.
//!
//! ```text
//! example_threads
//! ```
#![tactic(auto)]

mod cache;
mod counted;
mod domains;
mod fault;
mod numbers;
mod setting;
mod stack;

use crate::fault::Fault;
use std::alloc::Global;
use std::io::Print;
use std::process::ExitCode;
use std::sync::Wait;
use std::thread::Threads;

/// Runs all three, and prints their lines.
fn run_all<R: Print + Threads + Wait + Sync>(rt: &R, alloc: Global) -> Result<(), Fault> {
    let (seen, left) = setting::run(rt, alloc)?;
    println!(rt;
        "setting: 2 threads stored {} values; {} read were never stored; objects left: {}",
        seen.done, seen.strange, left.live
    )?;
    let (popped, left) = stack::run(rt, alloc)?;
    println!(rt;
        "stack: 2 threads pushed {} nodes; those popped add up to {}; objects left: {}",
        popped.done, popped.sum, left.live
    )?;
    let (found, left) = cache::run(rt, alloc)?;
    println!(rt;
        "cache: 2 threads asked {} times; {} recalled were never remembered; objects left: {}",
        found.done, found.strange, left.live
    )?;
    Ok(())
}

fn main(rt: HostRuntime) -> ExitCode {
    match run_all(&rt, rt.alloc()) {
        Ok(()) => ExitCode::SUCCESS,
        Err(fault) => {
            let _ = rt.eprintln(fault);
            ExitCode::from(1)
        }
    }
}
