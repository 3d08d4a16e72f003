//! Two clients over one domain: pairs of protocols, and protocols that have another one as a part.
//!
//! The rule of a pair: the strong cells below one bound, the weak cells below another and the payloads whose word 0 is
//! 0 belong to its left part, and all others to its right part; what a part owns belongs to it. The law of the pair is
//! both laws. A deed of one part is a deed of the pair where its step is foreign to the other part, which the seat can
//! tell by what it has itself; the other part's view stays as it is.
//!
//! A call over a protocol that has `Q` as a part, `P: Part<Q, S>`, uses deeds of `Q` as deeds of `P`. Each protocol is
//! a part of itself, and a pair has each of its sides.
//!
//! Nothing here runs, and no step is promised to come.
//!
//! ```text
//! let pair = Pair::new(QueueLaw::linked(0, 1), other, 2, 0);  // strong cells 0 and 1 are the queue's
//! let deed = InPart::new(LinkNode);                           // a deed of the queue, as one of the pair
//! ```
#![tactic(auto)]

mod in_part;
mod kind;
mod laws;
mod pair;
mod part;
mod sides;
mod spares;

pub use in_part::InPart;
pub use kind::PairKind;
pub use laws::{
    a_left_deed_leaves_the_right, a_pair_is_both, a_part_may_make_its_own, a_part_may_use_its_own,
    a_right_deed_leaves_the_left, each_payload_is_one_parts, foreign_steps_leave,
    spared_steps_are_foreign,
};
pub use pair::Pair;
pub use part::{Left, Part, Right, Whole};
pub use plain_protocol::{Deed, PayloadKind, Protocol, Still};
pub use spares::Spares;
