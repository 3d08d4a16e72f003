//! What a queue puts into its slots.
ghost use Rattle.queue_protocol.specs.Nodes.{IsNodePayload, node_bounded, node_weight};

use protocol_pairs::PayloadKind;

/// Nodes: all words are 0, and they weigh nothing.
#[derive(Clone, Copy, Debug, Drop)]
pub struct NodeKind;

impl PayloadKind for NodeKind {
    ghost fits = { IsNodePayload };

    ghost weight = { node_weight };

    fn weigh(payload: &[u64; 16]) -> u64 {
        0
    }

    ghost bounded = { node_bounded };
}
