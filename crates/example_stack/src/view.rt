//! What a seat did with a stack. No value of this type is made: contracts alone see it.
use std::collections::LinkedList;

/// The values that a seat pushed, those that it saw in the stack, and those that it popped, each the payload of a node.
#[derive(Drop)]
pub struct View {
    pub pushed: LinkedList<LinkedList<u64>>,
    pub seen: LinkedList<LinkedList<u64>>,
    pub popped: LinkedList<LinkedList<u64>>,
}
