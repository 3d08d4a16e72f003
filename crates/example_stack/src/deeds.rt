//! The deeds by which seats make nodes, push and pop them.
ghost use Rattle.example_stack.specs.Deeds.{LinkReady, MakeReady, PopReady, PushReady, SeeReady, SeeTells, TellsNothing, pop_next, push_next, same_next, see_next};
ghost use Rattle.example_stack.specs.Keeps.{link_keeps, make_keeps, pop_keeps, push_keeps, see_keeps};

use crate::law::StackLaw;
use cdrc::{Deed, PayloadKind};

/// A node comes to life.
#[derive(Clone, Copy, Debug, Drop)]
pub struct MakeNode;

impl<K: PayloadKind> Deed<StackLaw<K>> for MakeNode {
    ghost ready = { λ it of. MakeReady };

    ghost next = { λ it of. same_next };

    ghost allows = { λ it of. TellsNothing };

    ghost keeps = { λ it of. make_keeps of.cell K.fits };
}

/// What the cell holds, or field 0 of a node that the seat owns, by a look or a check. If the seat has the object
/// afterwards, as under a snapshot, its value joins those that the seat saw in the stack; and what it saw are values
/// of nodes.
#[derive(Clone, Copy, Debug, Drop)]
pub struct SeeNode;

impl<K: PayloadKind> Deed<StackLaw<K>> for SeeNode {
    ghost ready = { λ it of. SeeReady of.cell K.fits };

    ghost next = { λ it of. see_next };

    ghost allows = { λ it of. SeeTells K.fits };

    ghost keeps = { λ it of. see_keeps of.cell K.fits };
}

/// Field 0 of an object gets null, or a node that the seat saw in the stack; or the step is calm.
#[derive(Clone, Copy, Debug, Drop)]
pub struct LinkNode;

impl<K: PayloadKind> Deed<StackLaw<K>> for LinkNode {
    ghost ready = { λ it of. LinkReady };

    ghost next = { λ it of. same_next };

    ghost allows = { λ it of. TellsNothing };

    ghost keeps = { λ it of. link_keeps of.cell K.fits };
}

/// The cell gets a node of the seat's own, where it holds what is expected. Then the node's value joins those that the
/// seat pushed.
#[derive(Clone, Copy, Debug, Drop)]
pub struct PushNode;

impl<K: PayloadKind> Deed<StackLaw<K>> for PushNode {
    ghost ready = { λ it of. PushReady of.cell K.fits };

    ghost next = { λ it of. push_next };

    ghost allows = { λ it of. TellsNothing };

    ghost keeps = { λ it of. push_keeps of.cell K.fits };
}

/// Where a node is the top, the cell gets null in its place, or a node that the seat saw in the stack. Then the value
/// of the one that was the top joins those that the seat popped, if the seat has it.
#[derive(Clone, Copy, Debug, Drop)]
pub struct PopNode;

impl<K: PayloadKind> Deed<StackLaw<K>> for PopNode {
    ghost ready = { λ it of. PopReady of.cell };

    ghost next = { λ it of. pop_next };

    ghost allows = { λ it of. TellsNothing };

    ghost keeps = { λ it of. pop_keeps of.cell K.fits };
}
