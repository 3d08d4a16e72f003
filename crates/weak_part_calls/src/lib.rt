//! The weak calls of handles over a protocol that has another one as a part: a seat counts and gives up weak
//! references, makes a strong one of a weak one, and loads weak references from places and stores them there, with the
//! deeds of the part.
//!
//! The rule is that of `part_calls`: each call does what the call of the same name does, as the part sees it. So its
//! contract speaks of the domain with the part in its protocol's place, and of the seat with what its view has of the
//! part. What the client's view has beside stays as it is.
//!
//! A store must be into a place of the part, and the rest must accept the deed's next views. Nothing is promised beyond
//! what the calls below promise: no step comes by itself, and a load may be refused as long as its place moves.
//!
//! ```text
//! let back = weaken(&domain, &mut seat, &last)?;                                   // domain: Domain<P>, P: Part<Q, S>
//! store_weak(&domain, &mut seat, WeakPlace::Field(node), Some(back), LinkBack);    // the node is one of the part's
//! let Some(found) = try_load_weak(&domain, &mut seat, WeakPlace::Field(node), LearnBefore)? else { .. };
//! let before = upgrade(&domain, &mut seat, &found, FindEnded)?;                    // or Ended, Spent
//! drop_weak(&domain, &mut seat, found);
//! ```
#![tactic(auto)]

mod handles;
mod loading;
mod storing;
mod upgrading;

pub use atomic_weak::collect;
pub use control_word::{
    Deed, Domain, EventPlace, LoadError, Outcome, Seat, SlotId, Spent, Strong, UpgradeError, Weak,
    WeakPlace, held_as,
};
pub use handles::{copy_weak, drop_weak, weaken};
pub use loading::try_load_weak;
pub use part_calls::{
    Deleter, MakeError, Place, copy_strong, drop_strong, look, make, reap, store, try_load,
    try_replace,
};
pub use storing::store_weak;
pub use upgrading::upgrade;
