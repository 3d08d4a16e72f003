//! What is left of records in strong cells once seat 0 is alone with them, the cells are cleared, and all has settled:
//! the records to which seat 0 kept references, and nothing else.
//!
//! The rule is that of `cell_law`. Seat 0 alone owns anything, namely the references that it kept for files, one to the
//! record of each word of each file, and its view tells the words. Then each kept slot has as many references as there
//! are files with its word, and the words of the kept slots are those of the files. What lives once cells hold nothing,
//! nothing is deferred and what ended is destroyed are the slots of these records; and nothing lives where nothing is
//! owned. So rows that were counted there and what two audits find are the report of the files.
//!
//! Nothing here runs, and no step is promised to come: that a state is settled is what a caller shows.
//!
//! ```text
//! strong_refs p s ≡ holders_in w files
//! ```
#![tactic(auto)]

mod kept;
mod records;
mod rest;
mod telling;
mod written;

pub use cell_law::{Sight, View};
pub use kept::{
    kept_references_count_files, one_word_one_slot, told_lives_are_now,
    words_of_kept_are_those_of_files,
};
pub use plain_audit::{Audit, Deleter, Heap, audit};
pub use records::{audits_find_records, nothing_is_left, records_are_left};
pub use rest::states_at_rest_are_settled;
pub use telling::views_go_on_to_tell;
pub use written::what_is_left_is_the_report;
