//! The law of records in strong cells over the plain state: each distinct text has one record, whose head stands in
//! the first null cell on the walk from the text's place, around the end, until seat 0 clears the cells when it is
//! alone; and the lemmas that each step of a seat keeps it.
//!
//! A record is a chain of slots along field 1: a head with a text's length and first 120 bytes, and a part for each
//! further 120. A seat makes it, binds its head in a null cell, and lists it then as bound. A cell that is set doesn't
//! change until cells are cleared, and its strong reference keeps the record alive.
//!
//! The rule gives a caller: the texts of set cells are those that views list as bound, no text twice
//! (`set_cells_are_bound`); once seat 0 is alone its view lists them all, those of other seats apart from its own
//! (`the_root_knows_all_texts`); the payloads that a seat read of what stands in a cell tell its text
//! (`a_found_record_is_the_text`), and a walk that comes to a null cell tells that the text has no record
//! (`null_cell_means_absent`); no more heads are listed than seats were granted, so where one more may be bound and
//! there are cells enough, a cell is null (`grants_bound_heads`); a head's references are its cell, its owners and what
//! is deferred (`heads_are_held_by_cells`); and once all is cleared and settled, what lives is owned
//! (`what_lives_is_owned`).
//!
//! Nothing here runs, and no step is promised to come.
//!
//! ```text
//! law: CellLaw (range 0 cells grants) p views
//! ```
#![tactic(auto)]

mod laws;
mod promises;
mod turns;
mod view;

pub use laws::others_keep_the_law;
pub use promises::{
    a_found_record_is_the_text, grants_bound_heads, heads_are_held_by_cells,
    null_cell_means_absent, one_head_one_word, set_cells_are_bound, the_root_knows_all_texts,
    what_lives_is_owned,
};
pub use turns::{records_are_found_in_turn, records_are_made_in_turn, walks_go_on};
pub use view::{Sight, View};
