//! An ordered map of versions as a protocol: what a client with such a map adds to the rule of a domain's table, and
//! the deeds by which seats make nodes, set their fields, read versions, publish a new one, and clear the map in the
//! end.
//!
//! The rule that it keeps is the law of the crate `map_law`, over one strong cell, the root's. A deed is ready by what
//! the seat itself has and by its view; it says what the view is afterwards, and keeps the law. So the law holds
//! between any two steps of all seats.
//!
//! Nothing here runs, and no step is promised to come. A deed doesn't say that the step that it goes with succeeds.
//!
//! ```text
//! let map = MapLaw::over(0);      // the root stands in cell 0 of a domain whose nodes are this map's
//! ```
#![tactic(auto)]

mod law;
mod making;
mod node_kind;
mod publishing;
mod reading;

pub use law::MapLaw;
pub use making::{MakeNode, SetField};
pub use node_kind::NodeKind;
pub use publishing::{ClearRoot, PublishTree};
pub use reading::{AnswerRead, ReadField, SeeRoot};
