//! Balanced trees and the maps that they spell, as a pure matter: the list of pairs that a tree has in order, changes
//! of one key, and what they make of a tree and of its list.
//!
//! A tree is *shaped* where its keys ascend, each node keeps its height, and the heights of two subtrees differ by at
//! most 1. A change of a key keeps the tree shaped and changes its list as it would change a map
//! (`changes_keep_trees_shaped`); the join that it is made of is balanced (`joins_are_balanced`). A key is searched on
//! one way down (`keys_lead_one_way`). A change changes what its key has and nothing else (`changes_are_of_one_key`),
//! and where all changes add one, each key counts its own (`bumps_are_counted`). At most 65,536 keys make at most 22
//! levels (`few_keys_few_levels`).
//!
//! Nothing here runs: there is no code that builds a tree.
//!
//! ```text
//! change: Alters k change t      -- of a tree t that is Shaped
//! ```
#![tactic(auto)]

mod change;
mod laws;

pub use change::{Change, Entry};
pub use laws::{
    bumps_are_counted, changes_are_of_one_key, changes_keep_trees_shaped, few_keys_few_levels,
    joins_are_balanced, keys_lead_one_way,
};
