//! The law of an ordered map of versions over the plain state: a balanced search tree of immutable nodes under one
//! strong cell, whose versions share subtrees; and the lemmas that each step of a seat keeps it.
//!
//! A node that a seat has made is *raw*: it stands in no tree, and the seat alone may set its fields. As soon as it
//! stands in a tree, even in one that is not published, nobody changes it any more. An update builds the new versions
//! of the nodes on one way down, and puts the new root into the cell by one deciding exchange, which its view lists as
//! an *entry* with its key, its change and its answer.
//!
//! The rule gives a caller: the root cell leads to one balanced search tree (`the_root_has_a_balanced_tree`), no node
//! of which is written (`trees_are_not_written`); the map changes by one change at each deciding exchange, which
//! answers what the key had before (`an_exchange_is_one_change`), and at no other step (`others_keep_the_map`); the
//! entries of all seats have one order, which ends in the map (`entries_have_one_order`); what a seat has read from the
//! root on is the map (`an_answer_is_the_maps`); and once all is settled, what lives are the nodes of the tree, one for
//! each key (`what_remains_is_the_tree`).
//!
//! Nothing here runs, and no step is promised to come.
//!
//! ```text
//! law: MapLaw cell p views
//! ```
#![tactic(auto)]

mod laws;
mod promises;
mod turns;
mod view;

pub use laws::{others_keep_the_law, others_keep_the_map};
pub use map_trees::{Change, Entry};
pub use promises::{
    an_answer_is_the_maps, an_exchange_is_one_change, entries_have_one_order,
    the_root_has_a_balanced_tree, trees_are_not_written, what_remains_is_the_tree,
};
pub use turns::{
    a_put_can_be_published, nodes_are_made_in_turn, notes_go_on_to_spell, patterns_are_their_trees,
};
pub use view::{Kid, Led, Note, Raw, Shown, View};
