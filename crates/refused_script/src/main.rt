//! `refused_script` is the program `cdrc_words` under another name, stored with a run that ends in a refusal: a script
//! whose third line asks for something of a name that the name isn't bound to. It keeps what `start` of `cdrc_run`
//! keeps, and promises nothing more.
//!
//! ```text
//! refused_script script refused.script
//! ```
#![tactic(auto)]

use cdrc_run::start;
use std::process::ExitCode;

fn main(rt: HostRuntime) -> ExitCode {
    start(&rt)
}
