//! A search of one version, whose root is held for its time.
ghost use Rattle.std.specs.Prelude.{◌≡◌, ◌≢◌, ◌+◌, ◌<◌, IfErr, IfOk, None, true};
ghost use Rattle.version_making.specs.protected_loads.plain_state.declared.slot.Kind.TheVariants.{Strong};
ghost use Rattle.version_making.specs.protected_loads.core_events.declared.view.Note.TheVariants as stands;
ghost use Rattle.version_making.specs.protected_loads.core_events.Steps.{with_note};
ghost use Rattle.version_making.specs.protected_loads.core_events.Views.{note_of};
ghost use Rattle.version_making.specs.protected_loads.acquire_retire.Notes.{least_free};
ghost use Rattle.version_making.specs.protected_loads.control_word.Moves.{KnowsStill};
ghost use Rattle.version_making.specs.protected_loads.control_word.Resting.{IsAtRest};
ghost use Rattle.version_reading.specs.Reading.{AtALook, HasNext, HasNode, IsOver, Reads, pair_by};
ghost use Rattle.version_map.specs.Maps.{SeesAnother};

use crate::map::Moved;
use version_making::{Domain, Seat, SlotId, held_as};
use version_reading::{MapLaw, look_at_root, seek};

/// The least pair with at least this key in the version of a root that the seat holds by `word`; that word stands for
/// nothing afterwards. `Moved` only where the root cell shows another root in the end.
pub(crate) fn search_version(
    domain: &Domain<MapLaw>,
    seat: &mut Seat<MapLaw>,
    cell: u32,
    root: SlotId,
    word: u32,
    key: u64,
) -> Result<Option<(u64, u64)>, Moved>
    requires rest { IsAtRest domain.now seat.old }
    requires here { seat.old.view.client.here ≡ true }
    requires over { IsOver cell domain.now }
    requires node { HasNode root seat.old }
    requires held { (0 < word) × (word < 4)
        × (note_of seat.old.view.core word ≡ stands.Valid Strong root) }
    requires free { least_free seat.old.view.core ≢ None }
    ensures answer { IfOk result (λ found. AtALook domain.now cell
        (HasNext cell key (pair_by found)) seat.old seat.new) }
    ensures moved { IfErr result (λ moved.
        SeesAnother cell (root.0 + 1) moved.seen moved.now seat.old seat.new) }
    ensures reads { Reads (with_note word stands.Idle seat.old.view.core) seat.old seat.new }
    ensures knows { KnowsStill (with_note word stands.Idle seat.old.view.core)
        seat.old seat.new }
    ensures rest { IsAtRest domain.now seat.new }
{
    let Some(free) = domain.free_note(seat) else {
        unreachable!()
    };
    let found = seek(domain, seat, root, free, key);
    let seen = held_as(Some(root));
    let now = held_as(look_at_root(domain, seat, cell));
    domain.release(seat, word);
    if now != seen {
        return Err(Moved { seen, now });
    }
    let Some(answer) = found else { unreachable!() };
    Ok(answer)
}
