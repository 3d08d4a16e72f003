//! What two clients put into their slots.
ghost use Rattle.protocol_pairs.specs.Shares.{FitsItsPart, weight_in_part};
ghost use Rattle.protocol_pairs.specs.Weights.{pair_bounded};

use plain_protocol::PayloadKind;
use std::marker::PhantomData;

/// A payload is the left part's exactly where its word 0 is 0. It fits and weighs what its part says.
#[derive(Debug, Drop)]
pub struct PairKind<K, L> {
    left: PhantomData<K>,
    right: PhantomData<L>,
}

impl<K: PayloadKind, L: PayloadKind> PayloadKind for PairKind<K, L> {
    ghost fits = { FitsItsPart K.fits L.fits };

    ghost weight = { weight_in_part K.weight L.weight };

    fn weigh(payload: &[u64; 16]) -> u64 {
        if payload[0] == 0 {
            K::weigh(payload)
        } else {
            L::weigh(payload)
        }
    }

    ghost bounded = { pair_bounded K.fits L.fits K.weight L.weight K.bounded L.bounded };
}
