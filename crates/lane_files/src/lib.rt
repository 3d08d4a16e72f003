//! What a lane does for the files that it counts: it draws tickets that stand for files, interns each piece of a file,
//! pushes its record on the shared queue and pops one whose word it counts, and keeps one reference to the record of
//! each word.
//!
//! The rule that is kept is the law of `words_law`, between any two steps of all seats: each item that was pushed is a
//! record of the directory, so that who pops it may read its text. Which pieces a lane pushed and whose words it
//! counted is told by its seat's view and its tally.
//!
//! It isn't promised that a call which may wait returns, nor who pops what.
//!
//! ```text
//! count_piece(&rt, &domain, &mut seat, &shared, b"ab", &mut tally, &mut room)?; // interns, offers a copy, takes one
//! drain(&rt, &domain, &mut seat, &shared, 1000, &mut tally)?; // takes until it finds none, 1,000 at most
//! let mut lane = Lane::new(alloc, 0);
//! run_lane(&rt, &domain, &mut seat, &shared, &gate, &weigh, &mut lane, &work)?;   // until no ticket is left
//! lane.keeper.kept        // for each file of the last round, one reference to the record of each distinct word
//! ```
#![tactic(auto)]

mod copying;
mod counting;
mod draining;
mod drawing;
mod interning;
mod keeper;
mod laws;
mod offering;
mod piece;
mod reading;
mod refusal;
mod shared;
mod taking;
mod tidying;

pub use control_word::{Domain, OpenError, PayloadKind, Quota, Seat, Shape, open_granted};
pub use copying::offer_copy;
pub use counting::count_file;
pub use draining::drain;
pub use drawing::run_lane;
pub use hand_queues::{AnyQueue, Deleter, Form, HandQueue, MakeError};
pub use keeper::{give_back, keep};
pub use lane_gate::{
    FileFault, Files, Gate, HonestFiles, HonestSink, HostFiles, HostSink, Meet, MemFiles, MemSink,
    Open, Sink, SinkFault,
};
pub use lane_work::{
    FileText, Keeper, Lane, Work, count_parts, count_pieces, count_slots, is_within_limits,
};
pub use laws::{
    full_domains_lack_slots, full_lanes_have_missed, full_lanes_have_scanned,
    full_lanes_own_no_node, lanes_have_makes,
};
pub use offering::offer;
pub use piece::count_piece;
pub use refusal::{FileError, LaneError, LaneStop, PieceError};
pub use shared::Shared;
pub use taking::take_one;
pub use tidying::tidy;
pub use weak_intern::{Directory, find, pairs_have_pieces};
pub use words_protocol::{
    DirectoryLaw, Left, MOST_SLOTS, NodeKind, OutOfMemory, PairKind, QueueLaw, RecordKind, WordsLaw,
};
