//! What is left of a queue and a directory of texts once seat 0 is alone with them, the queue is shut, and all has
//! settled: the records that seat 0 owns, and nothing else.
//!
//! The rule is that of `words_law`. The state rests: nothing is deferred, under a snapshot, dying or being filled, no
//! strong cell holds anything, each object that lives has a strong reference, and seat 0 alone owns anything, namely
//! heads whose texts are kept. Then no node of the queue lives, where none is another one's item or none is unreached.
//! So each head has just the references that seat 0 owns, what lives are the records of these heads and nothing else,
//! and nothing lives where seat 0 owns nothing.
//!
//! Where the references that seat 0 owns are those that it kept for files, one to the record of each word of each file,
//! each head has as many of them as there are files with its word, and the words of the heads are those of the files.
//!
//! Nothing here runs, and no step is promised to come: that a state rests is what a caller shows, as a settle ensures
//! it.
//!
//! ```text
//! live_slots p ≡ sum_by slots_of_word (words_at p views heads)
//! ```
#![tactic(auto)]

mod kept;
mod nodes;
mod records;
mod rest;
mod written;

pub use kept::{
    kept_references_are_heads, kept_references_count_files, one_word_one_slot,
    words_of_kept_are_those_of_files,
};
pub use nodes::{a_node_may_hold_itself, no_node_is_left, nothing_is_unreached};
pub use plain_audit::Deleter;
pub use records::{audits_find_records, heads_are_counted, nothing_is_left, records_are_left};
pub use rest::settled_states_rest;
pub use words_law::{Form, Left, PairKind, Right};
pub use written::what_is_left_is_the_report;
