//! The words of a node.
ghost use Rattle.std.specs.Prelude.{◌≡◌};
ghost use Rattle.map_law.specs.Nodes.{words};

/// The payload of a node with this key, value and height.
pub(crate) fn node_words(key: u64, value: u64, height: u64) -> [u64; 16]
    ensures { result ≡ words key value height }
{
    [1, key, value, height, 0, 0, 0, 0, 0, 0, 0, 0, 0, 0, 0, 0]
}
