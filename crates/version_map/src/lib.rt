//! An ordered map of versions over a strong cell of a domain: seats read the map, and change one key at a time, while
//! others publish new versions.
//!
//! The rule that is kept is the law of `map_law`: the root cell leads to a balanced search tree of immutable nodes, and
//! versions share subtrees. A read holds the root of one version by an announcement word, searches down from it, and
//! looks at the root cell again in the end: where that shows the same root, the answer is that of the map at this
//! look. Else the try is refused with the two roots that the cell showed. `get`, `next` and `range` try again until no
//! other seat is quicker, so they may wait; the other calls return.
//!
//! A read takes two of the seat's announcement words 1 to 3, which stand for nothing afterwards. It counts no reference
//! and makes no object, so it is never refused for a quota.
//!
//! An update makes the nodes on one way down anew, over a reference to the root that it loaded, and puts the new root
//! into the cell by one exchange. It is refused where another seat was quicker, with the two words that the cell
//! showed, or where the seat's makes or adds, or the domain's slots, are used up; then nothing has changed.
//!
//! It isn't promised that a version is still the map's when a call returns, that an update succeeds, nor that a call
//! which may wait returns. No update tries again by itself.
//!
//! ```text
//! let map = VersionMap::over(0);                                   // over strong cell 0
//! let before = map.try_update(&domain, &mut seat, 7, Change::Put(70))?;    // what key 7 had; Again, or Refused
//! let value = map.try_get(&domain, &mut seat, 7)?;                 // Some(value) of key 7, None; or Moved
//! let least = map.try_next(&domain, &mut seat, 7)?;                // the least pair with a key of at least 7
//! let mut pairs = [(0, 0); 100];
//! let count = map.range(&rt, &domain, &mut seat, 7, 50, &mut pairs);   // the pairs with keys 7 to 50, of one version
//! ```
#![tactic(auto)]

mod altering;
mod clearing;
mod handles;
mod laws;
mod map;
mod outcome;
mod reading;
mod retrying;
mod scanning;
mod searching;
mod taking_ranges;
mod updating;
mod waiting;

pub use laws::{a_seat_plays_on, updates_leave_the_rest};
pub use map::{Moved, VersionMap};
pub use outcome::UpdateError;
pub use version_changes::Change;

// What its callers take with it.
pub use version_making::{Domain, MakeError, MapLaw, Seat};
