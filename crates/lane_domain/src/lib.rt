//! A domain for lanes that count the words of some files: its queue and its directory, with a seat for each lane, and
//! as many cells and makes as the files need.
//!
//! The rule that is kept is the law of `words_law`, between any two steps of all seats. Here stands what the domain is
//! opened with: each ticket of a file grants an intern for each piece, and a make for each slot that the piece may
//! take. So no lane stops for want of a make, and none since each slot is taken unless there are fewer slots than
//! makes.
//!
//! It isn't promised that there is memory, nor, where there are fewer slots than makes, that the queue is laid.
//!
//! ```text
//! if is_within_limits(&work) {
//!     let Opened { domain, root, seats, shared } = open_lanes(alloc, &work, 2, 4096, Form::Linked)?;   // two lanes
//! }
//! ```
#![tactic(auto)]

mod ending;
mod jobs;
mod laws;
mod opened;
mod opening;
mod running;
mod tickets;

pub use ending::LaneEnd;
pub use lane_files::{
    FileError, FileFault, FileText, Files, Gate, HandQueue, HonestFiles, HonestSink, HostFiles,
    HostSink, Lane, LaneError, LaneStop, Meet, MemFiles, MemSink, NodeKind, Open, PieceError,
    RecordKind, Shared, Sink, SinkFault, WordsLaw, Work, count_parts, count_pieces, count_slots,
    find, is_within_limits, pairs_have_pieces, take_one,
};
pub use laws::{
    attached_seats_have_makes, full_domains_lack_slots, lanes_have_makes, opened_seats_can_begin,
};
pub use opened::{OpenLanesError, Opened, Unlaid};
pub use opening::open_lanes;
pub use running::run_lanes;
