//! The root of a map: it is held for the time of a read, and looked at in the end.
ghost use Rattle.std.specs.Prelude.{◌≡◌, IfErr, IfOk, IfSome, None, Ok, true};
ghost use Rattle.protected_loads.specs.plain_state.Steps.{word_of};
ghost use Rattle.protected_loads.specs.control_word.Moves.{KnowsStill};
ghost use Rattle.protected_loads.specs.control_word.Resting.{IsAtRest};
ghost use Rattle.map_law.specs.Nodes.{root};
ghost use Rattle.version_reading.specs.Reading.{AtALook, HoldsRoot, IsFree, IsMoved, IsOver, KnowsRoot, Reads, Saw, held_by, root_by};

use crate::deeds::LookAtRoot;
use map_protocol::{MapLaw, SeeRoot};
use protected_loads::{Domain, EventPlace, Moved, Outcome, Seat, SlotId, acquire};

/// Holds the root of the map by this word, which stands for nothing before. `None` only where the look found null.
/// `Moved` only where the cell showed another root after the one that was found had been announced. In both cases the
/// word stands for nothing again. At most four steps.
pub fn hold_root(
    domain: &Domain<MapLaw>,
    seat: &mut Seat<MapLaw>,
    cell: u32,
    word: u32,
) -> Result<Option<SlotId>, Moved>
    requires rest { IsAtRest domain.now seat.old }
    requires over { IsOver cell domain.now }
    requires here { seat.old.view.client.here ≡ true }
    requires free { IsFree word seat.old.view.core }
    ensures null { result ≡ Ok None
        → AtALook domain.now cell (λ p. root p cell ≡ None) seat.old seat.new }
    ensures held { IfOk result (λ found. IfSome found (λ slot.
        HoldsRoot cell word slot seat.old seat.new)) }
    ensures moved { IfErr result (λ moved.
        IsMoved cell (word_of moved.seen) (word_of moved.now) seat.old seat.new) }
    ensures reads { Reads (held_by word (root_by result) seat.old.view.core) seat.old seat.new }
    ensures knows { KnowsStill seat.old.view.core seat.old seat.new }
    ensures rest { IsAtRest domain.now seat.new }
{
    acquire(
        domain,
        seat,
        word,
        EventPlace::Cell(cell),
        LookAtRoot,
        SeeRoot,
    )
}

/// What the root cell holds. Where the seat has that root, the map is what its notes tell from it on. One step.
pub fn look_at_root(domain: &Domain<MapLaw>, seat: &mut Seat<MapLaw>, cell: u32) -> Option<SlotId>
    requires rest { IsAtRest domain.now seat.old }
    requires over { IsOver cell domain.now }
    ensures map { AtALook domain.now cell (KnowsRoot cell result seat.old) seat.old seat.new }
    ensures saw { Saw cell (word_of result) seat.old.view.core.trail seat.new.view.core.trail }
    ensures reads { Reads seat.old.view.core seat.old seat.new }
    ensures knows { KnowsStill seat.old.view.core seat.old seat.new }
    ensures rest { IsAtRest domain.now seat.new }
{
    match domain.look(seat, EventPlace::Cell(cell), LookAtRoot) {
        Outcome::Found(found) => found,
        _ => None,
    }
}
