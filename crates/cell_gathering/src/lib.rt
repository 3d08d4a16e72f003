//! Seat 0 takes over what lanes counted over records in strong cells, and what they kept for that.
//!
//! Lanes that have run to their ends give their seats back. Each seat leaves, and seat 0 has then what the lane's seat
//! had: its references, and what its view tells. So once all have left, seat 0 is alone, owns just the references that
//! lanes kept, and its view tells of them the words of all files of the work.
//!
//! The rule that is kept is the law of `cell_law`, between any two events of all seats.
//!
//! ```text
//! let gathered = gather(alloc, &domain, &mut root, &work, done)?;   // done: of each lane its seat, and the lane
//! counted_words(&rt, alloc, &gathered.tallies)?                     // how often each word occurs
//! gathered.kept         // for each file, one reference to the record of each of its words
//! ```
#![tactic(auto)]

mod done;
mod gathering;
mod laws;

pub use cell_lanes::{CellLaw, EpochDomain, EpochSeat, Lane, Strong, Work};
pub use done::{Done, Gathered};
pub use gathering::gather;
pub use laws::{
    each_word_is_told, gathered_files_are_those_of_work, lanes_take_each_ticket, words_are_bytes,
};
pub use tally_sums::{OutOfMemory, Tally};
