//! Texts that share one record as long as somebody uses it: how a seat finds the record of a text
//! in the weak cells of a directory, and makes it where the text has none.
//!
//! The rule that it keeps is the law of `directory_law`, by the deeds of `directory_protocol`. The
//! walk of a text begins at a cell that its bytes tell, and goes on around the end. At each cell a
//! seat announces the head that stands there, checks that it stands there still, and compares its
//! payload with that of the text under the announcement. Only where they are the same does it take
//! a strong reference, so no walk counts a weak one, and a text of at most 120 bytes is found for
//! one add. Of a longer text it reads the rest under that reference, by `text_reading`, and gives it
//! up where the bytes differ. What it learns it notes in its view, as the law asks, so what the walk
//! found stays true. An intern goes on where the walk comes to null: it makes a record, by
//! `record_making`, and puts it there by a compare and exchange.
//!
//! All calls are over each protocol that has a directory as a part, and change nothing else of the
//! seat's view.
//!
//! It isn't promised that a call which may wait returns.
//!
//! ```text
//! let directory = Directory::over(0, 10);                              // weak cells 0 to 9
//! match find(&rt, &domain, &mut seat, &directory, b"ab")? {      // else Spent
//!     Some(record) => ..,                                              // its live record at a step of the call
//!     None => ..,                                                      // it had none at a step of the call
//! }
//! let record = intern(&rt, &domain, &mut seat, &directory, b"ab")?;    // or MakesSpent, AddsSpent, Full
//! let cell = cell_on(hash_of(b"ab"), 0, 10);                           // cell 5, at which that walk begins
//! ```
#![tactic(auto)]

mod binding;
mod comparing;
mod confirming;
mod drawing;
mod finding;
mod interning;
mod looking;
mod raising;
mod seeing;
mod sought;
mod walking;

pub use atomic_weak::{
    LostWeak, WeakSnap, WeakSnapshot, copy_strong, drop_strong, end_weak, load_weak, store_weak,
    try_load_weak, try_replace_weak, try_weak_snapshot, weak_counted,
};
pub use comparing::is_payload;
pub use drawing::draw;
pub use finding::find;
pub use interning::intern;
pub use raising::raise;
pub use record_making::{
    Directory, DirectoryLaw, ForgetEnded, HasDirectory, Lost, MakeError, RecordKind, cell_on,
    hash_of, head_of, load, part_at, store, try_load, try_replace,
};
pub use seeing::{Sighted, let_go, see};
pub use text_reading::{
    Snapshot, counted, end, keep, pairs_have_pieces, read_text, snapshot, try_snapshot,
};
