//! An ordered map of versions at rest: what is left of a domain once one seat alone is in it, owns nothing, and has
//! destroyed all that it may.
//!
//! Nothing is kept here: these are laws over the plain state, where the law of `map_law` holds of it. A map at rest is
//! settled (`maps_at_rest_are_settled`): nothing but the root cell holds anything. Then what lives are the nodes of the
//! root's tree, one for each key, and an audit finds just so many, none of them kept by a cycle
//! (`audits_find_the_tree`).
//!
//! Nothing runs here, and it isn't promised that a map comes to rest.
//!
//! ```text
//! audits_find_the_tree();      // of the state that a seat which is alone knows, and of what its audit found
//! ```
#![tactic(auto)]

mod laws;

pub use laws::{audits_find_the_tree, maps_at_rest_are_settled};
pub use plain_audit::{Audit, Deleter};
