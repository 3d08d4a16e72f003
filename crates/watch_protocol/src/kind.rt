//! What observers and deliveries are as payloads.
ghost use Rattle.watch_law.specs.Payloads.{IsWatchPayload, watch_weight};
ghost use Rattle.watch_law.proofs.Weights.{watch_bounded};

use watch_law::PayloadKind;

/// An observer is 1, its id and zeros; a delivery is 2, its event and zeros. Each weighs as much as its word 0.
#[derive(Clone, Copy, Debug, Drop)]
pub struct WatchKind;

impl PayloadKind for WatchKind {
    ghost fits = { IsWatchPayload };

    ghost weight = { watch_weight };

    fn weigh(payload: &[u64; 16]) -> u64 {
        payload[0]
    }

    ghost bounded = { watch_bounded };
}
