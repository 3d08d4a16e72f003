//! Why an update changed nothing.
use version_making::MakeError;

/// Why an update changed nothing. Then neither the map nor the entries of the seat have changed by the call.
#[derive(Clone, Copy, PartialEq, Eq, Debug, Drop)]
pub enum UpdateError {
    /// Another seat was quicker: the root cell showed these two words, which differ, to two events of the call. A word
    /// is 0 for null, and one more than its number for a slot.
    Again { seen: u64, now: u64 },
    /// A node wasn't made, or no reference to one was taken.
    Refused(MakeError),
}
