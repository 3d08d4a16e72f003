//! The program `cdrc_words` as a library: it counts the words of files on lanes, runs a script of pointer commands,
//! makes a list of atomic steps, draws words, and counts words that it draws.
//!
//! The work is `run`, a call over any source, sink and gate, which answers a status. The rule that it keeps: with
//! status 0 or 8 the bytes taken are the output that the words and the files' contents mean, and every other status but
//! that of no memory comes only where its cause is there. `start` is `run` for a process: it hands on the words after
//! the program's name, the host's files and standard output, writes the line for the status to standard error, and
//! answers the exit code.
//!
//! It doesn't promise that a run ends, since lanes retry and the gate may wait, nor when memory is enough. No clause
//! says what the host gives and takes.
//!
//! ```text
//! fn main(rt: HostRuntime) -> ExitCode {
//!     start(&rt)
//! }
//! ```
#![tactic(auto)]

mod closing;
mod drawing;
mod ending;
mod explaining;
mod jobs;
mod outcome;
mod output;
mod processing;
mod refusing;
mod running;
mod starting;

pub use explaining::{exit_status, explain};
pub use outcome::{End, RefusedSeat, Why};
pub use processing::{HostLines, StatusLines, process};
pub use running::run;
pub use starting::start;
