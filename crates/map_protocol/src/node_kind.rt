//! What a map puts into its slots.
ghost use Rattle.std.specs.Prelude.{◌≤◌, ◌^◌};
ghost use Rattle.std.proofs.Common.{arith};
ghost use Rattle.map_law.specs.Nodes.{IsNode};

use plain_protocol::PayloadKind;

/// Nodes: word 0 is 1, the words 1 to 3 are the key, the value and the height, and all others are 0. Each weighs 1.
#[derive(Clone, Copy, Debug, Drop)]
pub struct NodeKind;

impl PayloadKind for NodeKind {
    ghost fits = { IsNode };

    ghost weight = { λ words. 1 };

    fn weigh(payload: &[u64; 16]) -> u64 {
        1
    }

    ghost bounded = { λ words fits. omega arith };
}
