//! Reading the text of a record: how a seat of a running domain goes along the chain of a record's
//! slots, hand over hand, and puts the text's bytes into a buffer.
//!
//! The rule that it keeps is the law of `directory_law`, by deeds of `directory_protocol` and by
//! `ReadPart`. The seat owns a reference to the head. From each slot it goes on to the part that
//! field 1 holds: it looks at the field, announces what it found, and checks that the field holds
//! it still, which the law promises as long as the slot before lives. So nothing is tried again,
//! and no reference is counted. It lets a slot go once it has the next one, so two of its
//! announcement words are enough. A text ends where as many bytes were read as its head tells.
//!
//! The call is over each protocol that has a directory as a part, and changes nothing else of the
//! seat's view.
//!
//! Nothing is promised of a slot of which the seat hasn't begun to read the text.
//!
//! ```text
//! let mut bytes = [0; 4096];
//! let length = read_text(&domain, &mut seat, record.slot(), &mut bytes); // of an upgraded head
//! let text = &bytes[..length as usize];
//! ```
#![tactic(auto)]

mod copying;
mod deeds;
mod going_on;
mod laws;
mod payloads;
mod reading;

pub use deeds::ReadPart;
pub use laws::{bytes_have_their_text, pairs_have_pieces};
pub use reading::read_text;
pub use snapshot_ptr::{Snapshot, counted, end, keep, snapshot, try_snapshot};
