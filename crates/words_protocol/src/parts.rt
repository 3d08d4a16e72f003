//! The queue and the directory as parts of the whole.
ghost use Rattle.std.specs.Prelude.{refl};
ghost use Rattle.queue_protocol.specs.protocol_pairs.Spared.{IsSpared};
ghost use Rattle.queue_protocol.specs.protocol_pairs.Sides.{left_frees, right_frees};
ghost use Rattle.queue_protocol.specs.protocol_pairs.Weights.{left_fits, right_fits};
ghost use Rattle.queue_law.specs.Owned as queue_owned;
ghost use Rattle.queue_protocol.specs.Nodes.{IsNodePayload, node_weight};
ghost use Rattle.directory_law.specs.Bytes.{IsPiece, piece_weight};
ghost use Rattle.directory_law.specs.Owned as directory_owned;
ghost use Rattle.words_law.specs.Pushes.{KeepsAll, MayPush, PushesBound};
ghost use Rattle.words_law.proofs.Parts.{directory_has, directory_rest, none_suits, push_suits, queue_has, queue_rest};
ghost use Rattle.words_protocol.specs.Sides.{area_of, ends_of};

use crate::law::WordsLaw;
use directory_protocol::{DirectoryLaw, HasDirectory};
use queue_protocol::{HasQueue, Left, Part, QueueLaw, Right};

impl Part<QueueLaw, Left> for WordsLaw {
    ghost part = { λ it. it.pair.left };

    ghost seen = { λ v. v.0 };

    ghost with_seen = { λ v w. (w, v.1) };

    ghost free = { λ it. IsSpared (directory_owned.owns (area_of it.pair.right)) };

    ghost suits = { λ it. PushesBound };

    ghost has = { λ it. queue_has (ends_of it.pair.left) (area_of it.pair.right) };

    ghost keeps_rest = { λ it. queue_rest (ends_of it.pair.left) (area_of it.pair.right) };

    ghost reads = { λ v w. refl };

    ghost puts_back = { λ v. refl };

    ghost puts_over = { λ v w u. refl };

    ghost frees = { λ it. left_frees it.pair.left_own it.pair.right_own it.pair.one_draws };

    ghost fits = { λ it. left_fits IsNodePayload IsPiece node_weight piece_weight
        it.pair.left_own };
}

impl HasQueue<Left> for WordsLaw {
    ghost may_push = { λ it. MayPush };

    ghost stays = { λ it v w item may. may };

    ghost accepts = { λ it. none_suits };

    ghost accepts_push = { λ it v w item may too. push_suits v w
        (record { item = item; taker = v.0.number }) too may };
}

impl Part<DirectoryLaw, Right> for WordsLaw {
    ghost part = { λ it. it.pair.right };

    ghost seen = { λ v. v.1 };

    ghost with_seen = { λ v w. (v.0, w) };

    ghost free = { λ it. IsSpared (queue_owned.owns (ends_of it.pair.left)) };

    ghost suits = { λ it. KeepsAll };

    ghost has = { λ it. directory_has (ends_of it.pair.left) (area_of it.pair.right) };

    ghost keeps_rest = { λ it. directory_rest (ends_of it.pair.left) (area_of it.pair.right) };

    ghost reads = { λ v w. refl };

    ghost puts_back = { λ v. refl };

    ghost puts_over = { λ v w u. refl };

    ghost frees = { λ it. right_frees it.pair.left_own it.pair.right_own it.pair.one_draws };

    ghost fits = { λ it. right_fits IsNodePayload IsPiece node_weight piece_weight
        it.pair.right_own };
}

impl HasDirectory<Right> for WordsLaw {
    ghost minds_none = { λ it v w keeps. keeps };
}
