//! Texts of 1 to 4,096 bytes as the payloads of slots, and the cell at which the walk of a text begins.
//!
//! A record is a head and parts, 120 bytes a slot: word 0 of a head is the text's length, that of a part 65,536 and the
//! number of its bytes. The rule that is kept: a text and its payloads determine one another, as `directory_law` reads
//! them.
//!
//! Nothing here steps, and nothing is made of a payload.
//!
//! ```text
//! let payload = head_of(b"ab");                          // word 0 is 2, word 1 is 25185
//! let cell = cell_on(hash_of(b"ab"), 0, 10);             // cell 5, at which the walk of that text begins
//! ```
#![tactic(auto)]

mod texts;

pub use texts::{cell_on, hash_of, head_of, part_at};
