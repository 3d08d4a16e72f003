//! A record goes into a cell.
ghost use Rattle.std.specs.Prelude.{true, false, ◌≡◌, ◌+◌, ◌<◌, ◌↔◌, IfOk, IsErr, Ok, OnErr};
ghost use Rattle.atomic_weak.specs.plain_state.Lists.{times};
ghost use Rattle.atomic_weak.specs.core_events.Steps.{HasRoom};
ghost use Rattle.atomic_weak.specs.control_word.Resting.{IsAtRest, IsSpent};
ghost use Rattle.record_making.specs.directory_calls.Directories.{CanCount, IsOver, area_of};
ghost use Rattle.weak_intern.specs.Interning.{Binds, ComesBy};
ghost use Rattle.weak_intern.specs.Races.{MissesCell};
ghost use Rattle.record_making.specs.Making.{HasNotedLast, candidate_in};
ghost use Rattle.record_making.specs.Texts.{text_of};
ghost use Rattle.weak_intern.specs.Sought.{IsSought};
ghost use Rattle.record_making.specs.directory_calls.Steps.{Leaves};

use crate::seeing::number;
use crate::sought::Sought;
use atomic_weak::{
    Domain, Seat, Spent, Strong, Weak, WeakPlace, drop_weak, try_replace_weak, weaken,
};
use record_making::{BindHead, Directory, DirectoryLaw, HasDirectory, InPart};

/// Puts a weak reference to the slot that was noted last into a cell to which the walk of its text
/// comes, where that cell is null; and whether it was so. Then an intern of the seat is used.
/// `Spent` exactly where the seat has no add left, and then nothing has changed. At most four
/// steps, and a collect.
pub(crate) fn bind<S, P: HasDirectory<S>>(
    domain: &Domain<P>,
    seat: &mut Seat<P>,
    directory: &Directory,
    cell: u32,
    sought: &Sought<'_>,
    candidate: &Strong,
) -> Result<bool, Spent>
    requires rest { IsAtRest domain.now seat.old }
    requires room { HasRoom seat.old.view.core }
    requires over { IsOver domain.now (P.part domain.now.protocol) directory.now }
    requires inside { cell < directory.now.cells }
    requires sought { IsSought sought.now.text.now sought.now.head sought.now.hash }
    requires quota { CanCount true (P.seen seat.old.view.client) }
    requires owned { 0 < times candidate.now.slot seat.old.view.core.owned }
    requires noted { HasNotedLast (candidate_in candidate.now.slot
        (text_of sought.now.text.now) seat.old)
        (P.seen seat.old.view.client) }
    requires comes { ComesBy (area_of (P.part domain.now.protocol))
        (P.seen seat.old.view.client) (text_of sought.now.text.now) cell }
    ensures spent { IsErr result ↔ IsSpent seat.old.view.core }
    ensures refused { OnErr result (seat.new ≡ seat.old) }
    ensures binds { IfOk result (λ done. Binds P.seen P.with_seen domain.now
        (area_of (P.part domain.now.protocol)) (text_of sought.now.text.now)
        candidate.now.slot done seat.old seat.new) }
    ensures lost { result ≡ Ok false → MissesCell ((P.part domain.now.protocol).first + cell)
        candidate.now.slot seat.old.view.core seat.new.view.core }
    ensures leaves { Leaves seat.old.view.core.owned seat.old.view.core.weaks seat.old seat.new }
    ensures makes { seat.new.view.core.makes ≡ seat.old.view.core.makes }
    ensures room { HasRoom seat.new.view.core }
    ensures rest { IsAtRest domain.now seat.new }
{
    let at = number::<S, P>(domain, directory, cell);
    let weak = weaken(domain, seat, candidate)?;
    let deed = InPart::<DirectoryLaw, S, BindHead>::new(BindHead);
    match try_replace_weak(domain, seat, WeakPlace::Cell(at), None, Some(weak), deed) {
        Ok(()) => Ok(true),
        Err(_) => {
            // The reference is the seat's still, whichever handle names it.
            drop_weak(domain, seat, Weak::of(candidate.slot()));
            Ok(false)
        }
    }
}
