//! A queue and a directory as one protocol: what a client adds to the rule of a domain's table whose queue's items are
//! the heads of the directory's texts; and the deed by which a seat begins to read an item that it popped.
//!
//! The rule that it keeps is the law of the crate `words_law`. Views, payloads and what is owned are those of the pair
//! of both. The strong cells 0 and 1 are the queue's, all weak cells and no other strong cell the directory's. Deeds
//! of the queue and of the directory are deeds of it, by `InPart`: a push besides asks that the seat has seen the item
//! in a cell or has bound it.
//!
//! Nothing here runs, and no step is promised to come. A deed doesn't say that the step that it goes with succeeds.
//!
//! ```text
//! let words = WordsLaw::new(QueueLaw::linked(0, 1), DirectoryLaw::new(0, 10, interns));
//! let push = InPart::new(LinkNode);       // a deed of the queue, as one of `words`
//! ```
#![tactic(auto)]

mod law;
mod parts;
mod reading;

pub use directory_protocol::{DirectoryLaw, RecordKind};
pub use law::WordsLaw;
pub use queue_law::MOST_SLOTS;
pub use queue_protocol::{Left, NodeKind, PairKind, QueueLaw, Right};
pub use reading::BeginRead;
pub use words_law::{OutOfMemory, Pieces, PiecesError, Tally, pieces};
