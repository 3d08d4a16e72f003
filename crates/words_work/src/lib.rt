//! The words of named files, counted on lanes, as one call.
//!
//! `words_work` reads the files in order, cuts them into pieces, and counts these on a domain that is sized by them.
//! The rule that it keeps: the bytes that it answers are the text of the files' contents, whatever the lanes do; and
//! each refusal but that of no memory comes only where its cause is there. `count_contents` does the same with
//! contents that were had in another way.
//!
//! It isn't promised that a call returns, since lanes may retry and a gate may wait, nor when memory is enough.
//!
//! ```text
//! let done = words_work(rt, alloc, &args, &mut files, &gate, &weigh)?; // args as `command_line` reads them
//! done.bytes                                                           // `3 2 a`, `1 1 b`, and three lines
//! ```
#![tactic(auto)]

mod beginning;
mod outcome;
mod working;

pub use file_work::{
    FileFault, Files, Form, MOST_BYTES, PiecesError, Plan, Protect, Refused, WordsArgs, read_file,
    read_files,
};
pub use lane_reports::{
    Deleter, Gate, HonestFiles, HonestSink, HostFiles, HostSink, Meet, MemFiles, MemSink, NodeKind,
    Open, PairKind, PayloadKind, RecordKind, Sink, SinkFault, WordsLaw, pieces,
};
pub use outcome::{WordsDone, WordsRefused};
pub use working::{count_contents, words_work};
