//! Reading one version of an ordered map of versions: how a seat of a running domain holds the root of a map, searches
//! down from it, and looks at the root cell in the end.
//!
//! The rule that it keeps is the law of `map_law`, by `SeeRoot` of `map_protocol` and by two deeds of its own. A node
//! that stands in a tree is never written, so what a field of it holds stays as long as the node lives. The seat holds
//! the root by one announcement word to the end, and goes down hand over hand by word 0 and one word more, in turn: it
//! looks at a field, announces what it found, and checks that it is there still, which it always is. So a search never
//! fails in its midst, counts no reference, and reads one field of each node on its way.
//!
//! What was read is a version's, but not yet the map's: that is told by a last look at the root cell, where that shows
//! the root that was held. `searches_find_the_least` says that then the search found the map's least pair with at least
//! the key.
//!
//! Nothing is promised of a version whose root isn't held throughout: a slot could come back as the root of another
//! one. Nothing here waits, and no step is promised to come.
//!
//! ```text
//! let Some(root) = hold_root(&domain, &mut seat, 0, 1)? else { .. };   // by word 1; null; or Moved
//! let found = seek(&domain, &mut seat, root, 2, key);                  // by words 0 and 2
//! if look_at_root(&domain, &mut seat, 0) == Some(root) { .. }          // found is the map's, at this look
//! domain.release(&mut seat, 1);
//! ```
#![tactic(auto)]

mod deeds;
mod laws;
mod root;
mod seeking;
mod stepping;

pub use deeds::{LookAtRoot, ReadSide};
pub use laws::searches_find_the_least;
pub use map_protocol::MapLaw;
pub use root::{hold_root, look_at_root};
pub use seeking::seek;
