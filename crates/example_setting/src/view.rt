//! What a seat did with a setting. No value of this type is made: contracts alone see it.
use std::collections::LinkedList;

/// The values that a seat stored, and those that it read, each the payload of an object.
#[derive(Drop)]
pub struct View {
    pub stored: LinkedList<LinkedList<u64>>,
    pub read: LinkedList<LinkedList<u64>>,
}
