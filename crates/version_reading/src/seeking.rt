//! A search down the tree of a root that the seat holds.
ghost use Rattle.std.specs.Prelude.{◌≡◌, ◌≢◌, ◌<◌, IfSome, None, slice_index};
ghost use Rattle.protected_loads.specs.core_events.declared.view.Note.TheVariants as stands;
ghost use Rattle.protected_loads.specs.core_events.Views.{note_of};
ghost use Rattle.protected_loads.specs.domain_rule.Views.{object_in};
ghost use Rattle.protected_loads.specs.control_word.Moves.{KnowsStill};
ghost use Rattle.version_reading.specs.Reading.{HasNode, IsLonger, IsReading, Reads, Sought, pair_by};
ghost use Rattle.version_reading.specs.Walks.{Turns, next_word};

use crate::stepping::{hold_side, let_go, read_word};
use map_protocol::MapLaw;
use protected_loads::{Domain, Seat, SlotId};

/// The least pair with at least this key, as it is found on one way down from a root that the seat holds: to the left
/// of each node whose key is greater, and to the right of one whose key is less. `None` where the way is longer than
/// the root's height tells. The seat goes hand over hand, by word 0 and by a word that stands for nothing before, and
/// holds neither afterwards. One step, and six for each level of the tree at most.
pub fn seek(
    domain: &Domain<MapLaw>,
    seat: &mut Seat<MapLaw>,
    root: SlotId,
    free: u32,
    key: u64,
) -> Option<Option<(u64, u64)>>
    requires reading { IsReading domain.now seat.old }
    requires node { HasNode root seat.old }
    requires first { note_of seat.old.view.core 0 ≡ stands.Idle }
    requires free { (0 < free) × (free < 4) × (note_of seat.old.view.core free ≡ stands.Idle) }
    ensures sought { IfSome result (λ found. Sought root key (pair_by found) seat.new) }
    ensures longer { result ≡ None
        → IsLonger root (slice_index (object_in seat.old.view root).payload 3) seat.new }
    ensures reads { Reads seat.old.view.core seat.old seat.new }
    ensures knows { KnowsStill seat.old.view.core seat.old seat.new }
{
    let levels = read_word(domain, seat, root, 3);
    let mut best = None;
    let mut at = root;
    let mut held = None;
    for _level in 0..levels {
        let found = read_word(domain, seat, at, 1);
        let value = read_word(domain, seat, at, 2);
        if found == key {
            let_go(domain, seat, at, held);
            return Some(Some((found, value)));
        }
        let (side, least) = turn(key, found, value, best);
        let word = other_word(held, free);
        let below = hold_side(domain, seat, at, side, word);
        let_go(domain, seat, at, held);
        let Some(kid) = below else {
            return Some(least);
        };
        best = least;
        at = kid;
        held = Some(word);
    }
    let_go(domain, seat, at, held);
    None
}

/// The field to which a search goes on from a node with another key, and the least pair with at least the key that it
/// has seen by then.
fn turn(key: u64, found: u64, value: u64, best: Option<(u64, u64)>) -> (u32, Option<(u64, u64)>)
    requires other { found ≢ key }
    ensures { Turns key found value (pair_by best) result.0 (pair_by result.1) }
{
    if found < key {
        (1, best)
    } else {
        (0, Some((found, value)))
    }
}

/// The word for the next node down: word 0 and the free one, in turn.
fn other_word(held: Option<u32>, free: u32) -> u32
    ensures { result ≡ next_word held free }
{
    match held {
        Some(0) => free,
        _ => 0,
    }
}
