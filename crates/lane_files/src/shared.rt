//! What lanes share beside the domain.
use hand_queues::AnyQueue;
use weak_intern::Directory;

/// The queue and the directory of one domain. It gives no right by itself: a call asks that they are those of the
/// domain's law.
#[derive(Clone, Copy, PartialEq, Eq, Debug, Drop)]
pub struct Shared {
    pub queue: AnyQueue,
    pub directory: Directory,
}
