//! A scan of one version, whose root is held for its time.
ghost use Rattle.std.specs.Prelude.{◌≡◌, ◌≢◌, ◌+◌, ◌<◌, IfErr, IfOk, IfSome, None, length, slice_index, true};
ghost use Rattle.version_making.specs.protected_loads.plain_state.declared.slot.Kind.TheVariants.{Strong};
ghost use Rattle.version_making.specs.protected_loads.core_events.declared.view.Note.TheVariants as stands;
ghost use Rattle.version_making.specs.protected_loads.core_events.Steps.{with_note};
ghost use Rattle.version_making.specs.protected_loads.core_events.Views.{note_of};
ghost use Rattle.version_making.specs.protected_loads.domain_rule.Views.{object_in};
ghost use Rattle.version_making.specs.protected_loads.acquire_retire.Notes.{least_free};
ghost use Rattle.version_making.specs.protected_loads.control_word.Moves.{KnowsStill};
ghost use Rattle.version_making.specs.protected_loads.control_word.Resting.{IsAtRest};
ghost use Rattle.version_reading.specs.Reading.{AtALook, HasNode, IsFree, IsLonger, IsOver, IsReading, Reads};
ghost use Rattle.version_map.specs.Maps.{HasRange, Scanned, SeesAnother};

use crate::map::Moved;
use version_making::{Domain, Seat, SlotId, held_as};
use version_reading::{MapLaw, look_at_root, seek};

/// The pairs with keys in a range, its ends among them, in the version of a root that the seat holds by `word`, put
/// into a buffer as `scan_version` does it. That word stands for nothing afterwards. `Moved` only where the root cell
/// shows another root in the end.
pub(crate) fn range_of_version(
    domain: &Domain<MapLaw>,
    seat: &mut Seat<MapLaw>,
    cell: u32,
    root: SlotId,
    word: u32,
    range: (u64, u64),
    out: &mut [(u64, u64)],
) -> Result<usize, Moved>
    requires rest { IsAtRest domain.now seat.old }
    requires here { seat.old.view.client.here ≡ true }
    requires over { IsOver cell domain.now }
    requires node { HasNode root seat.old }
    requires held { (0 < word) × (word < 4)
        × (note_of seat.old.view.core word ≡ stands.Valid Strong root) }
    requires free { least_free seat.old.view.core ≢ None }
    ensures answer { IfOk result (λ count. AtALook domain.now cell
        (HasRange cell range.0 range.1 (length out.old) count out.new) seat.old seat.new) }
    ensures moved { IfErr result (λ moved.
        SeesAnother cell (root.0 + 1) moved.seen moved.now seat.old seat.new) }
    ensures room { length out.new ≡ length out.old }
    ensures reads { Reads (with_note word stands.Idle seat.old.view.core) seat.old seat.new }
    ensures knows { KnowsStill (with_note word stands.Idle seat.old.view.core)
        seat.old seat.new }
    ensures rest { IsAtRest domain.now seat.new }
{
    let Some(free) = domain.free_note(seat) else {
        unreachable!()
    };
    let found = scan_version(domain, seat, root, free, range.0, range.1, out);
    let seen = held_as(Some(root));
    let now = held_as(look_at_root(domain, seat, cell));
    domain.release(seat, word);
    if now != seen {
        return Err(Moved { seen, now });
    }
    let Some(count) = found else { unreachable!() };
    Ok(count)
}

/// Puts the pairs with keys from `low` to `high` of the version of a root that the seat holds into a buffer, in
/// ascending order, as many as there is room for, and answers how many they are. `None` where a way down is longer than
/// the root's height tells. It searches anew from the root for each pair.
fn scan_version(
    domain: &Domain<MapLaw>,
    seat: &mut Seat<MapLaw>,
    root: SlotId,
    free: u32,
    low: u64,
    high: u64,
    out: &mut [(u64, u64)],
) -> Option<usize>
    requires reading { IsReading domain.now seat.old }
    requires node { HasNode root seat.old }
    requires first { note_of seat.old.view.core 0 ≡ stands.Idle }
    requires free { IsFree free seat.old.view.core }
    ensures scanned { IfSome result (λ count.
        Scanned root low high (length out.old) count out.new seat.new) }
    ensures longer { result ≡ None
        → IsLonger root (slice_index (object_in seat.old.view root).payload 3) seat.new }
    ensures room { length out.new ≡ length out.old }
    ensures reads { Reads seat.old.view.core seat.old seat.new }
    ensures knows { KnowsStill seat.old.view.core seat.old seat.new }
{
    let mut least = low;
    for count in 0..out.len() {
        let found = seek(domain, seat, root, free, least)?;
        let Some((key, value)) = found else {
            return Some(count);
        };
        if key > high {
            return Some(count);
        }
        out[count] = (key, value);
        if key == high {
            return Some(count + 1);
        }
        least = key + 1;
    }
    Some(out.len())
}
