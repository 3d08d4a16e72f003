//! What a walk looks for.

/// A text that a walk looks for.
#[derive(Drop)]
pub(crate) struct Sought<'a> {
    pub(crate) text: &'a [u8],
    /// The payload of its head.
    pub(crate) head: [u64; 16],
    /// The number from which its place is taken.
    pub(crate) hash: u64,
}
