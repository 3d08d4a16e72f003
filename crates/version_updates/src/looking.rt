//! A look that tells whether a version is still the map's.
ghost use Rattle.std.specs.Prelude.{◌≡◌, ◌≤◌, ◌<◌, IfErr, IfOk};
ghost use Rattle.map_law.specs.plain_state.Lists.{times};
ghost use Rattle.map_law.specs.plain_state.declared.slot.SlotId.{SlotId};
ghost use Rattle.version_making.specs.Keeping.{IsReadyFor, Keeps, none, of_handle};
ghost use Rattle.version_updates.specs.Looking.{IsMoved, IsStill};

use crate::deeds::LookAtVersion;
use crate::handles::slot_of;
use crate::update::Lost;
use map_protocol::MapLaw;
use slot_store::{Domain, EventPlace, Outcome, Seat, Strong, held_as};

/// Looks at the root cell. Where that still holds the root, the map is what the seat's notes spell from it on, and no
/// way down that they spell is longer than the root's height tells; so an update that found nothing to change is
/// answered by the map at this look, and one that found too long a way finds another root now. `Lost` exactly where the
/// cell holds another root. One step.
pub fn still_root(
    domain: &Domain<MapLaw>,
    seat: &mut Seat<MapLaw>,
    cell: u32,
    root: &Option<Strong>,
) -> Result<(), Lost>
    requires ready { IsReadyFor domain.now seat.old }
    requires cell { (cell ≡ domain.now.protocol.cell) × (cell < domain.now.shape.cells) }
    requires owned { (x : SlotId) → of_handle root.now x ≤ times x seat.old.view.core.owned }
    ensures still { IfOk result (λ done. IsStill domain.now cell root.now seat.old seat.new) }
    ensures moved { IfErr result (λ lost.
        IsMoved domain.now cell root.now lost seat.old seat.new) }
    ensures client { seat.new.view.client ≡ seat.old.view.client }
    ensures keeps { Keeps 0 0 none none seat.old seat.new }
    ensures ready { IsReadyFor domain.now seat.new }
{
    let seen = held_as(slot_of(root));
    let Outcome::Found(found) = domain.look(seat, EventPlace::Cell(cell), LookAtVersion) else {
        unreachable!()
    };
    let now = held_as(found);
    if now == seen {
        Ok(())
    } else {
        Err(Lost { seen, now })
    }
}
