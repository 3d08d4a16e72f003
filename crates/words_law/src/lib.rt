//! The law of a queue and a directory over one domain, where what is pushed on the queue are heads of texts: and the
//! lemmas that steps of both keep it.
//!
//! The rule is the law of the queue and the law of the directory, each over its own part of the views, and one clause
//! more: each item that was ever pushed has a text, which some seat's view keeps for the item's slot, in the item's
//! life. A seat may push a head that it saw in a cell, or that it bound. So a seat that popped an item may read it,
//! though it never saw it in a cell.
//!
//! The rule gives a caller: each item has one text (`items_have_texts`); what was popped was pushed
//! (`popped_items_were_pushed`); where all was popped, the words that were popped are those that were pushed, each as
//! often (`words_agree`); and once seat 0 is alone, its view tells all of that (`the_root_knows_all`).
//!
//! Nothing here runs, and no step is promised to come.
//!
//! ```text
//! law: WordsLaw (record { form = Linked; head = 0; tail = 1 }) area p views
//! ```
#![tactic(auto)]

mod deeds;
mod laws;
mod promises;
mod shares;

pub use cdrc_text::{OutOfMemory, Pieces, PiecesError, Tally, pieces};
pub use deeds::directory_deeds_forget_nothing;
pub use laws::{
    each_part_keeps_the_law, items_are_read_in_turn, others_keep_the_law, what_may_be_pushed,
};
pub use promises::{
    each_list_is_its_seats, items_have_texts, known_texts_stay, living_items_are_records,
    popped_items_were_pushed, slots_tell_words, the_root_knows_all,
    what_was_read_is_what_was_pushed, words_agree,
};
pub use protocol_pairs::{Left, PairKind, Right};
pub use queue_law::Form;
pub use shares::counts_add_up;
