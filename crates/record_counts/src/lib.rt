//! What records of words take and count where they are all that lives: the slots of each word, what an audit finds of
//! them, and when the rows of kept records are the report of some files.
//!
//! A record is a chain of slots along field 1, as `directory_law` has it. The state *holds records*: each slot that
//! lives is a head or a part, and is owned by seat 0, or field 1 of one that lives leads to it. Then each slot that
//! lives stands in one of the owned records, once, whatever the cells are from which the records were found.
//!
//! Of references that are kept for files it has what is told of them: one for each word of a file, to a slot of which
//! that word is told. What tells it is left open, so that a law over weak cells and one over strong cells have the same
//! counts.
//!
//! Nothing here runs, and no state is promised to come.
//!
//! ```text
//! live_slots p ≡ sum_by slots_of_word (words_of text heads)
//! ```
#![tactic(auto)]

mod held;
mod records;
mod rows;
mod texts;

pub use held::{nothing_is_held, what_is_held_is_reached};
pub use records::records_are_all_that_lives;
pub use rows::counted_rows_are_the_report;
pub use texts::words_take_slots;
