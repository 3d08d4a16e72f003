//! A queue and observers as one protocol.
ghost use Rattle.std.specs.Prelude.{◌≡◌, ◌<◌};
ghost use Rattle.watch_law.specs.News.{NewsLaw as Law, first_view, gone, joined, owns};
ghost use Rattle.watch_law.proofs.News.{news_calm, news_foreign, news_leave, news_start};
ghost use Rattle.watch_protocol.specs.Sides.{area_of, ends_of};

use crate::kind::WatchKind;
use crate::law::WatchLaw;
use queue_protocol::{NodeKind, Pair, PairKind, Protocol, QueueLaw};

/// The law of one queue and of observers, where each delivery that is pushed on the queue is to an observer.
#[derive(Debug, Drop)]
pub struct NewsLaw {
    pub pair: Pair<QueueLaw, WatchLaw>,
}

impl NewsLaw {
    /// A queue over the strong cells 0 and 1, and observers.
    pub fn new(queue: QueueLaw, watch: WatchLaw) -> NewsLaw
        requires head { queue.head < 2 }
        requires tail { queue.tail < 2 }
        ensures queue { result.pair.left ≡ queue }
        ensures watch { result.pair.right ≡ watch }
        ensures bounds { (result.pair.strong ≡ 2) × (result.pair.weak ≡ 0) }
    {
        NewsLaw {
            pair: Pair::new(queue, watch, 2, 0),
        }
    }
}

impl Protocol for NewsLaw {
    type View = (queue_law::View, watch_law::View);

    type Kind = PairKind<NodeKind, WatchKind>;

    ghost first = { λ it. first_view (ends_of it.pair.left) };

    ghost law = { λ it. Law (ends_of it.pair.left) (area_of it.pair.right) };

    ghost joined = { λ it. joined };

    ghost gone = { gone };

    ghost owns_cell = { λ it. (owns (ends_of it.pair.left) (area_of it.pair.right)).cell };

    ghost owns_weak_cell = { λ it.
        (owns (ends_of it.pair.left) (area_of it.pair.right)).weak_cell };

    ghost owns_payload = { λ it. (owns (ends_of it.pair.left) (area_of it.pair.right)).payload };

    ghost owns_tickets = { λ it. (owns (ends_of it.pair.left) (area_of it.pair.right)).tickets };

    ghost start = { λ it. news_start (ends_of it.pair.left) (area_of it.pair.right) };

    ghost calm = { λ it. news_calm (ends_of it.pair.left) (area_of it.pair.right) };

    ghost leave = { λ it. news_leave (ends_of it.pair.left) (area_of it.pair.right) };

    ghost foreign = { λ it. news_foreign (ends_of it.pair.left) (area_of it.pair.right) };
}
