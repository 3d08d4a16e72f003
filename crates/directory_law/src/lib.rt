//! The law of a directory over the plain state: a range of weak cells in which equal texts share one record as long
//! as somebody uses it; and the lemmas that each step of a seat keeps it.
//!
//! A record is a chain of slots along field 1: a head with a text's length and first 120 bytes, and a part for each
//! further 120. A walk for a text begins at the cell that its bytes tell, and goes on around the end. A head goes
//! into the first null cell of its walk, and then that cell never changes: where its record has ended it is a
//! gravestone, which every walk passes. The law stands over what seats' views note and keep: which slots were made
//! and stand nowhere, and which text each cell has.
//!
//! The rule gives a caller: each text has at most one live record, which stands in a cell of its text
//! (`one_live_record`); a text that was bound stays as long as its head lives (`kept_texts_stay`); set cells are at
//! most the interns that seats were given (`cells_within_interns`); bytes and payloads determine one another
//! (`laws_of_texts`).
//!
//! Nothing here runs, and no step is promised to come.
//!
//! ```text
//! law: DirectoryLaw (record { first = 0; cells = 10; interns = 4 ∷ 6 ∷ []; grants = [] }) p views
//! ```
#![tactic(auto)]

mod laws;
mod promises;
mod texts;
mod view;

pub use laws::others_keep_the_law;
pub use promises::{
    cells_within_interns, kept_heads_may_be_read, kept_texts_stay, live_where_bound,
    one_live_record, parts_are_linked_once, records_are_made_in_turn, room_for_an_intern,
    set_cells_have_texts,
};
pub use texts::{laws_of_texts, texts_end};
pub use view::{GivenTo, Led, Note, Ran, Rope, Seen, View};
