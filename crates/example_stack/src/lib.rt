//! A stack: seats push nodes onto one strong cell, and pop them. What its user wants to know: a value that was popped
//! was pushed.
//!
//! A value is the payload of a node, all sixteen words; field 0 of a node holds the one below it, and the cell holds
//! the top. The rule that is kept: what the cell holds was pushed by some seat, so was what field 0 of a node holds,
//! and so was each value that a seat popped.
//!
//! A push and a pop are one try each: where another seat has been quicker they are refused, and say so. No step is
//! promised to come. That a value is popped once, or that none is lost, isn't told.
//!
//! ```text
//! let node = make_node(&domain, &mut seat, &value)?;     // a domain opened with StackLaw::<RecordKind>::new(0)
//! try_push(&domain, &mut seat, 0, node)?;                // strong cell 0; or NotPushed, with the node back
//! let Some(node) = try_pop(&domain, &mut seat, 0)? else { .. };    // an empty stack; or Moved, Spent
//! ```
#![tactic(auto)]

mod deeds;
mod law;
mod making;
mod popping;
mod promises;
mod pushing;
mod seeing;
mod view;

pub use cdrc::LoadError;
pub use deeds::{LinkNode, MakeNode, PopNode, PushNode, SeeNode};
pub use law::StackLaw;
pub use making::make_node;
pub use popping::try_pop;
pub use promises::each_value_was_pushed;
pub use pushing::{NotPushed, try_push};
pub use view::View;
