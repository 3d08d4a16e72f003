//! The changes of a subtree that an update of an ordered map of versions makes: from a reference to the old tree to a
//! reference to the new one, in which one key has another value, or is absent. The nodes on one way down are made anew,
//! and all other subtrees are shared with the old tree.
//!
//! A call takes over the reference to the old tree, opens the nodes on the way to the key, and joins the subtrees again
//! on the way up. It says what it did by two *patterns*: the seat's notes spell the old one from the old tree on, and
//! the new one from the new tree on; and whatever balanced search tree the old one stands for, the new one stands for
//! that tree with the change (`IsChanged`). So the caller can publish the new tree in the place of the old one. Where a
//! call is refused, what it took over and what it made is given up.
//!
//! Nothing is put into the root cell here, and nothing is promised of the map. A key that isn't there may be taken: its
//! answer is none, and the nodes on the way are made anew for nothing. It isn't promised that few nodes are made, only
//! that there are at most three for each level, and one more.
//!
//! ```text
//! let root = load_root(&domain, &mut seat, 0)?;
//! let Changed { tree, answer } = change_below(&domain, &mut seat, root, 5, Change::Put(90), 22)?;
//! ```
#![tactic(auto)]

mod changing;
mod gluing;
mod laws;
mod mending;
mod outcome;
mod putting;
mod seeing;
mod taking;

pub use changing::change_below;
pub use laws::{changes_can_be_published, ways_are_not_longer};
pub use map_trees::Change;
pub use outcome::{ChangeError, Changed};
