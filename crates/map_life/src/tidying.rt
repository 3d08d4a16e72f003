//! Nodes of old versions go.
ghost use Rattle.std.specs.Prelude.{◌≤◌};
ghost use Rattle.version_map.specs.Playing.{Plays};

use map_protocol::NodeKind;
use seat_life::{Deleter, reap};
use version_map::{Domain, MapLaw, Seat};

/// Destroys nodes that nothing holds any more, `most` at most, and answers how many they were. Each is one of a version
/// that was replaced, and whose last reader among this seat's words is gone. At most 21 steps for each.
pub fn tidy(domain: &Domain<MapLaw>, seat: &mut Seat<MapLaw>, most: u32) -> u32
    requires plays { Plays domain.now seat.old }
    ensures few { result ≤ most }
    ensures plays { Plays domain.now seat.new }
{
    let deleter: Deleter<NodeKind, _> = Deleter::keep(|_node: &[u64; 16]| 1);
    for count in 0..most {
        if reap(domain, seat, &deleter).is_none() {
            return count;
        }
    }
    most
}
