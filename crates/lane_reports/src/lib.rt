//! The words of some files, counted on lanes, as one call: it opens a domain, runs the lanes, and answers the report.
//!
//! The rule that is kept is the law of `words_law`, between any two steps of all seats. `lane_domain` opens the domain
//! and runs the lanes; here seat 0 takes over what they have, and reports. The text is the report of the files,
//! whatever the number of lanes, the form of the queue and the interleaving.
//!
//! It isn't promised that the call returns.
//!
//! ```text
//! if is_within_limits(&work) {
//!     let counted = count_words(&rt, alloc, &work, 2, 4096, Form::Linked, &Open, &weigh)?;    // on two lanes
//!     counted.text        // `3 2 a`, `1 1 b`, and three lines of numbers
//! }
//! ```
#![tactic(auto)]

mod audits;
mod counted;
mod done;
mod finishing;
mod gathering;
mod giving;
mod held;
mod laws;
mod learning;
mod parting;
mod popping;
mod records;
mod refusal;
mod rows;
mod running;
mod shutting;
mod taking;

pub use counted::{CountError, Counted};
pub use domain_audit::Seat;
pub use done::{Done, Gathered};
pub use gathering::gather;
pub use lane_domain::{
    FileFault, FileText, Files, Gate, HonestFiles, HonestSink, HostFiles, HostSink, Meet, MemFiles,
    MemSink, NodeKind, Open, RecordKind, Sink, SinkFault, WordsLaw, Work, count_pieces,
    count_slots, is_within_limits,
};
pub use law_lesson::PayloadKind;
pub use laws::{lanes_keep_files, runs_tell_deeds};
pub use popping::take_all;
pub use refusal::RowsError;
pub use running::count_words;
pub use shutting::shut_and_settle;
pub use tally_sums::{OutOfMemory, PiecesError, Tally, pieces};
pub use words_rest::{Deleter, Form, PairKind};
