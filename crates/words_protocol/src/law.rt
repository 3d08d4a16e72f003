//! A queue and a directory of texts as one protocol.
ghost use Rattle.std.specs.Prelude.{◌≡◌, ◌<◌};
ghost use Rattle.words_law.specs.Views.{gone};
ghost use Rattle.words_law.specs.Law.{WordsLaw as Law};
ghost use Rattle.words_law.specs.Owned.{first_view, joined, owns};
ghost use Rattle.words_law.proofs.Law.{words_calm, words_foreign, words_leave, words_start};
ghost use Rattle.words_protocol.specs.Sides.{area_of, ends_of};

use directory_protocol::{DirectoryLaw, RecordKind};
use queue_law::Protocol;
use queue_protocol::{NodeKind, Pair, PairKind, QueueLaw};

/// The law of one queue and one directory, where each item that is pushed on the queue is a head of the directory.
#[derive(Debug, Drop)]
pub struct WordsLaw {
    pub pair: Pair<QueueLaw, DirectoryLaw>,
}

impl WordsLaw {
    /// A queue over the strong cells 0 and 1, and a directory.
    pub fn new(queue: QueueLaw, directory: DirectoryLaw) -> WordsLaw
        requires head { queue.head < 2 }
        requires tail { queue.tail < 2 }
        ensures queue { result.pair.left ≡ queue }
        ensures directory { result.pair.right ≡ directory }
        ensures bounds { (result.pair.strong ≡ 2) × (result.pair.weak ≡ 0) }
    {
        WordsLaw {
            pair: Pair::new(queue, directory, 2, 0),
        }
    }
}

impl Protocol for WordsLaw {
    type View = (queue_law::View, directory_law::View);

    type Kind = PairKind<NodeKind, RecordKind>;

    ghost first = { λ it. first_view (ends_of it.pair.left) (area_of it.pair.right) };

    ghost law = { λ it. Law (ends_of it.pair.left) (area_of it.pair.right) };

    ghost joined = { λ it. joined };

    ghost gone = { gone };

    ghost owns_cell = { λ it. (owns (ends_of it.pair.left) (area_of it.pair.right)).cell };

    ghost owns_weak_cell = { λ it.
        (owns (ends_of it.pair.left) (area_of it.pair.right)).weak_cell };

    ghost owns_payload = { λ it. (owns (ends_of it.pair.left) (area_of it.pair.right)).payload };

    ghost owns_tickets = { λ it. (owns (ends_of it.pair.left) (area_of it.pair.right)).tickets };

    ghost start = { λ it. words_start (ends_of it.pair.left) (area_of it.pair.right) };

    ghost calm = { λ it. words_calm (ends_of it.pair.left) (area_of it.pair.right) };

    ghost leave = { λ it. words_leave (ends_of it.pair.left) (area_of it.pair.right) };

    ghost foreign = { λ it. words_foreign (ends_of it.pair.left) (area_of it.pair.right) };
}
