//! A new version is published.
ghost use Rattle.std.specs.Prelude.{◌≡◌, ◌<◌, IfErr, IfOk, false};
ghost use Rattle.slot_store.specs.core_events.Steps.{IsContent};
ghost use Rattle.atomic_shared.specs.Places.{named};
ghost use Rattle.version_making.specs.Keeping.{IsReadyFor, Keeps, OwnsBoth, none, of_both};
ghost use Rattle.version_updates.specs.Publishing.{IsLost, IsPublished, MakesVersion, but_for, entries_by};

use crate::handles::slot_of;
use crate::update::{Lost, Update};
use atomic_shared::{Place, try_replace};
use map_protocol::{MapLaw, PublishTree};
use slot_store::{Domain, Seat, Strong, held_as};
use version_making::give_up;

/// Puts the root of a new version into the root cell, where that still holds the root of the version that the new one
/// was made of. The map has the change from that exchange on, and the seat one entry more, with the answer. `Lost`
/// exactly where the cell held another root; then neither the map nor the entries have changed. Both references are
/// given up in each case: the new one goes into the cell, or is dropped. One exchange, a collect where one is due then,
/// and at most two drops; no add and no make.
pub fn publish(
    domain: &Domain<MapLaw>,
    seat: &mut Seat<MapLaw>,
    cell: u32,
    old: Option<Strong>,
    new: Option<Strong>,
    update: Update,
) -> Result<(), Lost>
    requires ready { IsReadyFor domain.now seat.old × (seat.old.view.client.cleared ≡ false) }
    requires cell { (cell ≡ domain.now.protocol.cell) × (cell < domain.now.shape.cells) }
    requires owned { OwnsBoth old new seat.old × IsContent domain.now.shape (named old) }
    requires version { MakesVersion old new update seat.old }
    ensures published { IfOk result (λ done.
        IsPublished domain.now cell old new update seat.old seat.new) }
    ensures lost { IfErr result (λ lost.
        IsLost domain.now cell old new update lost seat.old seat.new) }
    ensures entries { seat.new.view.client.entries
        ≡ entries_by result update seat.old.view.client }
    ensures keeps { Keeps 0 0 (of_both old new) none seat.old
        (but_for seat.old.view.client seat.new) }
    ensures open { seat.new.view.client.cleared ≡ false }
    ensures ready { IsReadyFor domain.now seat.new }
{
    let expected = slot_of(&old);
    let deed = PublishTree {
        old: expected,
        new: slot_of(&new),
        key: update.key,
        change: update.change,
        answer: update.answer,
    };
    match try_replace(domain, seat, Place::Cell(cell), expected, new, deed) {
        Ok(()) => {
            give_up(domain, seat, old);
            Ok(())
        }
        Err(lost) => {
            let seen = held_as(expected);
            let now = lost.now;
            give_up(domain, seat, lost.back);
            give_up(domain, seat, old);
            Err(Lost { seen, now })
        }
    }
}
