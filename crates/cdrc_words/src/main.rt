//! The program `cdrc_words`, which counts the words of files on lanes, runs a script of pointer commands, makes a list
//! of atomic steps, draws words to be counted, and counts words that it draws. All of it is `start` of `cdrc_run`,
//! whose contract says which statuses come; `run` of that crate says what each means. It doesn't promise that a run
//! ends.
//!
//! ```text
//! cdrc_words words [--lanes N] [--rounds N] [--slots N] [--queue linked|double | --protect announce|epoch] FILE..
//! cdrc_words script FILE
//! cdrc_words steps FILE
//! cdrc_words gen SEED WORDS VOCABULARY
//! cdrc_words bulk [--lanes N] SEED WORDS VOCABULARY
//! ```
#![tactic(auto)]

use cdrc_run::start;
use std::process::ExitCode;

fn main(rt: HostRuntime) -> ExitCode {
    start(&rt)
}
