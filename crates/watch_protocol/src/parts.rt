//! The queue and the observers as parts of the whole.
ghost use Rattle.std.specs.Prelude.{refl};
ghost use Rattle.queue_protocol.specs.protocol_pairs.Spared.{IsSpared};
ghost use Rattle.queue_protocol.specs.protocol_pairs.Sides.{left_frees, right_frees};
ghost use Rattle.queue_protocol.specs.protocol_pairs.Weights.{left_fits, right_fits};
ghost use Rattle.queue_law.specs.Owned as queue_owned;
ghost use Rattle.queue_protocol.specs.Nodes.{IsNodePayload, node_weight};
ghost use Rattle.watch_law.specs.Owned as watch_owned;
ghost use Rattle.watch_law.specs.Pushes.{KeepsAll, MayPush, PushesAddressed};
ghost use Rattle.watch_law.proofs.Parts.{none_suits, push_suits, queue_has, queue_rest, watch_has, watch_rest};
ghost use Rattle.watch_law.specs.Payloads.{IsWatchPayload, watch_weight};
ghost use Rattle.watch_protocol.specs.Sides.{area_of, ends_of};

use crate::law::WatchLaw;
use crate::news::NewsLaw;
use queue_protocol::{HasQueue, Left, Part, QueueLaw, Right};

impl Part<QueueLaw, Left> for NewsLaw {
    ghost part = { λ it. it.pair.left };

    ghost seen = { λ v. v.0 };

    ghost with_seen = { λ v w. (w, v.1) };

    ghost free = { λ it. IsSpared (watch_owned.owns (area_of it.pair.right)) };

    ghost suits = { λ it. PushesAddressed };

    ghost has = { λ it. queue_has (ends_of it.pair.left) (area_of it.pair.right) };

    ghost keeps_rest = { λ it. queue_rest (ends_of it.pair.left) (area_of it.pair.right) };

    ghost reads = { λ v w. refl };

    ghost puts_back = { λ v. refl };

    ghost puts_over = { λ v w u. refl };

    ghost frees = { λ it. left_frees it.pair.left_own it.pair.right_own it.pair.one_draws };

    ghost fits = { λ it. left_fits IsNodePayload IsWatchPayload node_weight watch_weight
        it.pair.left_own };
}

impl HasQueue<Left> for NewsLaw {
    ghost may_push = { λ it. MayPush };

    ghost stays = { λ it v w item may. may };

    ghost accepts = { λ it. none_suits };

    ghost accepts_push = { λ it v w item may too. push_suits v w
        (record { item = item; taker = v.0.number }) too may };
}

impl Part<WatchLaw, Right> for NewsLaw {
    ghost part = { λ it. it.pair.right };

    ghost seen = { λ v. v.1 };

    ghost with_seen = { λ v w. (v.0, w) };

    ghost free = { λ it. IsSpared (queue_owned.owns (ends_of it.pair.left)) };

    ghost suits = { λ it. KeepsAll };

    ghost has = { λ it. watch_has (ends_of it.pair.left) (area_of it.pair.right) };

    ghost keeps_rest = { λ it. watch_rest (ends_of it.pair.left) (area_of it.pair.right) };

    ghost reads = { λ v w. refl };

    ghost puts_back = { λ v. refl };

    ghost puts_over = { λ v w u. refl };

    ghost frees = { λ it. right_frees it.pair.left_own it.pair.right_own it.pair.one_draws };

    ghost fits = { λ it. right_fits IsNodePayload IsWatchPayload node_weight watch_weight
        it.pair.right_own };
}
