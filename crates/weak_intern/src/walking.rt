//! The walk of a text over the cells of a directory.
ghost use Rattle.std.specs.Prelude.{◌≡◌, ◌+◌, ◌≤◌, IfOk, IsErr, length};
ghost use Rattle.atomic_weak.specs.core_events.Steps.{HasRoom};
ghost use Rattle.atomic_weak.specs.control_word.Resting.{IsAtRest, IsSpent};
ghost use Rattle.record_making.specs.directory_calls.Directories.{CanCount, IsOver, area_of};
ghost use Rattle.record_making.specs.directory_calls.Learning.{LearnsIn};
ghost use Rattle.record_making.specs.directory_law.Walks.{FindsRoom};
ghost use Rattle.record_making.specs.Texts.{text_of};
ghost use Rattle.text_reading.specs.Reading.{HasTwoFree};
ghost use Rattle.weak_intern.specs.Sought.{HasPieces, IsSought};
ghost use Rattle.record_making.specs.directory_calls.Steps.{Leaves, with_found};
ghost use Rattle.weak_intern.specs.Walking.{ComesTo, CostsBy, EndsAround, used_by, walked_by};

use crate::looking::{Sight, look};
use crate::seeing::number;
use crate::sought::Sought;
use atomic_weak::{Domain, EventPlace, Seat, Spent, Strong};
use record_making::{Directory, DirectoryLaw, HasDirectory, InPart, LookAtCell, cell_on};
use std::sync::Wait;

/// Where a walk ended.
#[derive(Debug, Drop)]
pub enum Walk {
    /// At the live record.
    Record(Strong),
    /// There was none. The walk has passed so many cells, or starts again where it has passed all.
    Absent(u32),
}

/// Walks over the cells for a text, up to its live record or a null cell. Where it comes to the
/// record, an intern of the seat is used if that is asked. At most one add for each cell.
pub(crate) fn seek<R: Wait, S, P: HasDirectory<S>>(
    rt: &R,
    domain: &Domain<P>,
    seat: &mut Seat<P>,
    directory: &Directory,
    sought: &Sought<'_>,
    intern: bool,
) -> Result<Walk, Spent>
    requires rest { IsAtRest domain.now seat.old }
    requires room { HasRoom seat.old.view.core }
    requires over { IsOver domain.now (P.part domain.now.protocol) directory.now }
    requires quota { CanCount intern (P.seen seat.old.view.client) }
    requires sought { IsSought sought.now.text.now sought.now.head sought.now.hash }
    requires free { HasTwoFree seat.old.view.core }
    requires pieces { HasPieces P.Kind.fits }
    ensures comes { IfOk result (λ walk. ComesTo P.seen domain.now
        (area_of (P.part domain.now.protocol)) (text_of sought.now.text.now) walk
        seat.old seat.new) }
    ensures costs { length sought.now.text.now ≤ 120
        → IfOk result (λ walk. CostsBy sought.now.head walk seat.old.view.core seat.new.view.core) }
    ensures spent { IsErr result → IsSpent seat.new.view.core }
    ensures leaves { Leaves (with_found (walked_by result) seat.old.view.core.owned)
        seat.old.view.core.weaks seat.old seat.new }
    ensures learns { LearnsIn P.seen P.with_seen (used_by intern result)
        seat.old.view.client seat.new.view.client }
    ensures makes { seat.new.view.core.makes ≡ seat.old.view.core.makes }
    ensures adds { seat.new.view.core.adds ≤ seat.old.view.core.adds + directory.now.cells }
    ensures room { HasRoom seat.new.view.core }
    ensures rest { IsAtRest domain.now seat.new }
{
    for passed in 0..directory.cells {
        let cell = cell_on(sought.hash, passed, directory.cells);
        match look::<R, S, P>(rt, domain, seat, directory, cell, sought, intern)? {
            Sight::Null => return Ok(Walk::Absent(passed)),
            Sight::Record(strong) => return Ok(Walk::Record(strong)),
            Sight::Other => {}
        }
    }
    come_around::<S, P>(domain, seat, directory);
    Ok(Walk::Absent(0))
}

/// A last look, at whichever cell, where a walk has passed them all: a seat that has an intern left
/// doesn't come to that. One step.
pub(crate) fn come_around<S, P: HasDirectory<S>>(
    domain: &Domain<P>,
    seat: &mut Seat<P>,
    directory: &Directory,
)
    requires rest { IsAtRest domain.now seat.old }
    requires room { HasRoom seat.old.view.core }
    requires over { IsOver domain.now (P.part domain.now.protocol) directory.now }
    ensures ends { EndsAround P.seen domain.now (area_of (P.part domain.now.protocol))
        seat.old seat.new }
    ensures finds_room { FindsRoom (area_of (P.part domain.now.protocol))
        (P.seen seat.old.view.client) }
    ensures leaves { Leaves seat.old.view.core.owned seat.old.view.core.weaks seat.old seat.new }
    ensures client { seat.new.view.client ≡ seat.old.view.client }
    ensures makes { seat.new.view.core.makes ≡ seat.old.view.core.makes }
    ensures adds { seat.new.view.core.adds ≡ seat.old.view.core.adds }
    ensures room { HasRoom seat.new.view.core }
    ensures rest { IsAtRest domain.now seat.new }
{
    let at = number::<S, P>(domain, directory, 0);
    let deed = InPart::<DirectoryLaw, S, LookAtCell>::new(LookAtCell);
    domain.look(seat, EventPlace::WeakCell(at), deed);
}
