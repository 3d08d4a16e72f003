//! The calls of handles over a protocol that has another one as a part: a seat makes, copies and gives up references,
//! and loads and stores them, with the deeds of the part.
//!
//! The rule: each call does what the call of the same name does, as the part sees it. So its contract speaks of the
//! domain with the part in its protocol's place, and of the seat with what its view has of the part; a proof about a
//! part's steps is made once, and holds under every protocol that has the part. What the client's view has beside
//! stays as it is.
//!
//! A step that writes must be within what the part owns, and the rest must accept the deed's next views. Nothing is
//! promised beyond what the calls below promise: no step comes by itself, and a load may be refused as long as its
//! place moves.
//!
//! ```text
//! let node = make(&domain, &mut seat, &[0; 16], MakeNode)?;              // domain: Domain<P>, P: Part<QueueLaw, S>
//! let found = try_load(&domain, &mut seat, Place::Cell(0), LearnHead)?;  // a deed of the queue
//! store(&domain, &mut seat, Place::Cell(1), Some(node), LayTail);        // cell 1 is the queue's
//! ```
#![tactic(auto)]

mod handles;
mod loading;
mod making;
mod storing;

pub use atomic_shared::{LoadError, Lost, Place, SlotId, Spent, Strong, leave};
pub use control_word::{
    Deed, Domain, Heap, OpenError, OutOfMemory, PayloadKind, Protocol, Quota, Seat, Shape,
    SlotImage, Still, open_domain, strong_count,
};
pub use handles::{copy_strong, drop_strong};
pub use loading::{look, try_load};
pub use making::{MakeError, make};
pub use slot_store::{Deleter, InPart, Left, Pair, PairKind, Part, Right, read, reap, settle};
pub use storing::{store, try_replace};
