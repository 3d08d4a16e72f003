//! What a seat did with a cache. No value of this type is made: contracts alone see it.
use std::collections::LinkedList;

/// The values that a seat remembered, and those that it recalled, each the payload of an object.
#[derive(Drop)]
pub struct View {
    pub remembered: LinkedList<LinkedList<u64>>,
    pub recalled: LinkedList<LinkedList<u64>>,
}
