//! What a seat sees in one cell of a directory.
ghost use Rattle.std.specs.Prelude.{◌≡◌, ◌≢◌, ◌<◌, ◌+◌, ◌∷◌, [], ◌++◌, None};
ghost use Rattle.atomic_weak.specs.core_events.declared.act.Act.TheVariants as act;
ghost use Rattle.atomic_weak.specs.core_events.declared.outcome.Outcome.TheVariants as outcome;
ghost use Rattle.atomic_weak.specs.core_events.Steps.{HasRoom};
ghost use Rattle.atomic_weak.specs.acquire_retire.Collecting.{move};
ghost use Rattle.atomic_weak.specs.acquire_retire.Notes.{least_free};
ghost use Rattle.atomic_weak.specs.control_word.Moves.{KnowsStill};
ghost use Rattle.atomic_weak.specs.control_word.Resting.{IsAtRest};
ghost use Rattle.record_making.specs.directory_calls.Directories.{IsOver, area_of};
ghost use Rattle.record_making.specs.directory_calls.Learning.{LearnsIn};
ghost use Rattle.weak_intern.specs.Seeing.{Sees};
ghost use Rattle.weak_intern.specs.Sighting.{IsSighted, SightsBy, let_go_of, sighted_in};

use atomic_weak::{Domain, EventPlace, Protocol, Seat, SlotId, acquire_at_last};
use record_making::{Directory, DirectoryLaw, HasDirectory, InPart, SeeHead};
use std::sync::Wait;

/// A head that a cell held, and the seat's announcement word that keeps its slot from another use,
/// until it is raised or let go.
#[derive(Debug, Drop)]
pub struct Sighted {
    pub slot: SlotId,
    pub word: u32,
}

/// The head that a cell of the range holds, announced by the least of the words 1 to 3 that stands
/// for nothing; or None where the cell is null. It counts nothing. At most four steps for each try.
pub fn see<R: Wait, S, P: HasDirectory<S>>(
    rt: &R,
    domain: &Domain<P>,
    seat: &mut Seat<P>,
    directory: &Directory,
    cell: u32,
) -> Option<Sighted>
    requires rest { IsAtRest domain.now seat.old }
    requires room { HasRoom seat.old.view.core }
    requires over { IsOver domain.now (P.part domain.now.protocol) directory.now }
    requires inside { cell < directory.now.cells }
    requires free { least_free seat.old.view.core ≢ None }
    ensures sees { Sees P.seen domain.now (area_of (P.part domain.now.protocol)) cell
        (sighted_in result) seat.old seat.new }
    ensures sights { SightsBy ((P.part domain.now.protocol).first + cell) result
        seat.old.view.core seat.new.view.core }
    ensures learns { LearnsIn P.seen P.with_seen 0 seat.old.view.client seat.new.view.client }
    ensures objects { KnowsStill seat.old.view.core seat.old seat.new }
    ensures room { HasRoom seat.new.view.core }
    ensures rest { IsAtRest domain.now seat.new }
{
    let Some(word) = domain.free_note(seat) else {
        unreachable!()
    };
    let at = number::<S, P>(domain, directory, cell);
    let deed = InPart::<DirectoryLaw, S, SeeHead>::new(SeeHead);
    match acquire_at_last(rt, domain, seat, word, EventPlace::WeakCell(at), deed) {
        Some(slot) => Some(Sighted { slot, word }),
        None => None,
    }
}

/// A head is let go: the word that announced it stands for nothing again. One step.
pub fn let_go<P: Protocol>(domain: &Domain<P>, seat: &mut Seat<P>, sighted: Sighted)
    requires rest { IsAtRest domain.now seat.old }
    requires sighted { IsSighted sighted seat.old.view.core }
    ensures core { seat.new.view.core ≡ record (let_go_of sighted seat.old.view.core) {
      trail = seat.old.view.core.trail ++ move (act.Release sighted.word) outcome.Plain ∷ [];
    } }
    ensures client { seat.new.view.client ≡ seat.old.view.client }
    ensures objects { KnowsStill (let_go_of sighted seat.old.view.core) seat.old seat.new }
    ensures room { HasRoom seat.old.view.core → HasRoom seat.new.view.core }
    ensures rest { IsAtRest domain.now seat.new }
{
    domain.release(seat, sighted.word);
}

/// Which weak cell of the domain a cell of the range is.
pub(crate) fn number<S, P: HasDirectory<S>>(
    domain: &Domain<P>,
    directory: &Directory,
    cell: u32,
) -> u32
    requires over { IsOver domain.now (P.part domain.now.protocol) directory.now }
    requires inside { cell < directory.now.cells }
    ensures is { result ≡ (P.part domain.now.protocol).first + cell }
    ensures there { result < domain.now.shape.weak_cells }
{
    // A domain has so few weak cells that the sum fits.
    let _most = domain.shape().weak_cells;
    directory.first + cell
}
