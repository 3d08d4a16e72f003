//! The ends of an update of an ordered map of versions: the root of the present version is loaded with what is known of
//! its height, and a new version is published by one exchange of the root cell. Besides, a look that tells whether the
//! version is still the map's, and the clearing of the map in the end.
//!
//! The domain keeps the law of `map_law` between any two steps. A publish is asked what the seat's notes spell from the
//! old root on and from the new one, and that the one pattern is the other with a change, whatever stands in the
//! subtrees that the seat hasn't read. Its exchange is the one step at which the map changes, by this change and no
//! other; where it is lost, another seat has put another root into the cell, and nothing has changed.
//!
//! It isn't promised that a publish succeeds, nor when the nodes of an old version, or of one that was never published,
//! are given back.
//!
//! ```text
//! let root = load_low_root(&domain, &mut seat, 0)?;              // None: the map is empty
//! // a new version is made of it, which shares all subtrees beside one way down
//! let update = Update { key: 7, change: Change::Put(70), answer: None };
//! publish(&domain, &mut seat, 0, root, new, update)?;            // or Lost: another seat was quicker
//! clear(&domain, &mut seat_0, 0);                                // once every other seat has left
//! ```
#![tactic(auto)]

mod clearing;
mod deeds;
mod handles;
mod laws;
mod looking;
mod publishing;
mod rooting;
mod update;

pub use clearing::clear;
pub use deeds::{LoadLowRoot, LookAtVersion};
pub use laws::altered_versions_are_changes;
pub use looking::still_root;
pub use publishing::publish;
pub use rooting::load_low_root;
pub use update::{Lost, Update};
