//! A queue as a protocol: what a client that has a queue adds to the rule of a domain's table, and the deeds by which
//! seats lay it, push, pop and shut it.
//!
//! The rule that it keeps is the law of the crate `queue_law`, over two strong cells. Each step of a push or a pop is
//! made with one deed. A deed is ready by what the seat itself has and by its view; it says what the view is
//! afterwards, and keeps the law. So the law holds between any two steps of all seats.
//!
//! A protocol that has a queue as one of its parts is a `HasQueue`: it says which items may be pushed, and calls on a
//! queue go over each of them.
//!
//! Nothing here runs, and no step is promised to come. A deed doesn't say that the step that it goes with succeeds.
//!
//! ```text
//! let queue = QueueLaw::linked(0, 1);       // the head cell and the tail cell
//! let queue = QueueLaw::double(0, 1);
//! ```
#![tactic(auto)]

mod has_queue;
mod helps;
mod law;
mod lessons;
mod node_kind;
mod nodes;
mod opening;
mod pops;
mod pushes;

pub use has_queue::HasQueue;
pub use helps::{FindEnded, FindSet, LearnBefore};
pub use law::QueueLaw;
pub use lessons::{AttachSeat, FindPassed, LearnHead, LearnItem, LearnNext, LearnTail, LookAhead};
pub use node_kind::NodeKind;
pub use nodes::{CarryItem, LinkBack, MakeNode};
pub use opening::{LayHead, LayTail, ShutHead, ShutTail};
pub use pops::{EmptyDummy, TakeItem};
pub use protocol_pairs::{Deed, Left, Pair, PairKind, Part, Protocol, Right, Still};
pub use pushes::{AdvanceTail, ExchangeTail, HelpLink, LandPush, LinkNode};
pub use queue_law::Form;
