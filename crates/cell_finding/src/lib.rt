//! Finding the record of a text in strong cells, over a domain whose readers open regions: the walk of a text over the
//! cells, under one open region.
//!
//! The rule that is kept is the law of `cell_law`, by the deeds of `cell_protocol`. At each cell the walk looks at what
//! stands there and compares its payloads with those of the text, word by word, as far as they are the same: a cell is
//! passed at the first word that differs. Records in cells don't change, so what the walk has passed stays passed.
//! Nothing is counted: the region keeps what it has seen.
//!
//! It isn't promised that a record is there still once the region is closed, unless the seat has gained a reference to
//! it before.
//!
//! ```text
//! enter(&domain, &mut seat);
//! let text = sought_text(b"ab");
//! match seek(&domain, &mut seat, 0, &text) {
//!     Walk::Record(slot) => ..,            // its record at a step of the call
//!     Walk::Null(passed) => ..,            // that cell was null at a step of the call, and the text had no record
//!     Walk::Around => ..,                  // all cells have other records: the seat may put none there
//! }
//! exit(&domain, &mut seat);
//! ```
#![tactic(auto)]

mod comparing;
mod confirming;
mod finding;
mod laws;
mod seeing;
mod sought;

pub use comparing::is_payload;
pub use finding::{look, seek};
pub use laws::{finds_stay_over_calls, sought_texts_are_words, walks_stay_over_calls};
pub use sought::{Sight, Sought, Walk, sought_text};
