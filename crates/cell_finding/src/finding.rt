//! The walk of a text.
ghost use Rattle.std.specs.Prelude.{◌+◌, ◌-◌, ◌*◌, ◌<◌, length};
ghost use Rattle.cell_calls.specs.Cells.{IsOver};
ghost use Rattle.cell_calls.specs.Keeping.{Keeps, Learns};
ghost use Rattle.epoch_domain.specs.epoch_core.Views.{IsInside};
ghost use Rattle.epoch_refs.specs.Walks.{IsAtRest};
ghost use Rattle.record_texts.specs.Texts.{parts_after, text_of};
ghost use Rattle.cell_finding.specs.Finding.{Ends, IsOnWalk, Meets};
ghost use Rattle.cell_finding.specs.Looking.{IsFew};
ghost use Rattle.cell_finding.specs.Sought.{IsSought};

use crate::confirming::{has_text, note_found};
use crate::seeing::head_in;
use crate::sought::{Sight, Sought, Walk};
use cell_calls::CellLaw;
use epoch_refs::{EpochDomain, EpochSeat};
use record_texts::cell_on;

/// Looks at the cell on the walk of a text that comes after so many others, in an open region. `Null` comes where that
/// cell was null at a step of this call: no cell held a record of the text then, and the view tells of none. `Other`
/// comes where it has the record of another text, so the walk goes on behind it. `Record` is the record of the text, at
/// a step of this call; the region has seen it, so until the exit it isn't destroyed. At most 18 events, and 17 more
/// for each part of the text.
pub fn look(
    domain: &EpochDomain<CellLaw>,
    seat: &mut EpochSeat<CellLaw>,
    passed: u32,
    sought: &Sought<'_>,
) -> Sight
    requires rest { IsAtRest domain.now seat.old }
    requires inside { IsInside seat.old.view.core }
    requires over { IsOver domain.now }
    requires sought { IsSought sought.now.text.now sought.now.head sought.now.hash }
    requires more { passed < domain.now.shape.cells }
    requires at { IsOnWalk domain.now (text_of sought.now.text.now) passed seat.old }
    ensures sights { Meets domain.now (text_of sought.now.text.now) passed result seat.old
        seat.new }
    ensures walked { IsOnWalk domain.now (text_of sought.now.text.now) passed seat.new }
    ensures learns { Learns seat.old.view.client seat.new.view.client }
    ensures keeps { Keeps 0 0 seat.old.view.core.owned seat.old seat.new }
    ensures few { IsFew (18 + 17 * parts_after (length sought.now.text.now)) seat.old seat.new }
    ensures rest { IsAtRest domain.now seat.new }
{
    let cell = cell_on(sought.hash, passed, domain.shape().cells);
    let Some(head) = head_in(domain, seat, cell) else {
        return Sight::Null;
    };
    if !has_text(domain, seat, head, sought) {
        return Sight::Other;
    }
    note_found(domain, seat, head);
    Sight::Record(head)
}

/// Goes on with the walk of a text that has passed so many cells, until a cell is null or has the record of the text.
/// `Null` tells how many cells the walk has passed then. `Around` comes where it has passed all cells: no cell held a
/// record of the text then, the view tells of none, and the seat may put no head more into a cell. So a seat that may
/// never meets it. For each cell at most the events of `look`, and one more.
pub fn seek(
    domain: &EpochDomain<CellLaw>,
    seat: &mut EpochSeat<CellLaw>,
    from: u32,
    sought: &Sought<'_>,
) -> Walk
    requires rest { IsAtRest domain.now seat.old }
    requires inside { IsInside seat.old.view.core }
    requires over { IsOver domain.now }
    requires sought { IsSought sought.now.text.now sought.now.head sought.now.hash }
    requires at { IsOnWalk domain.now (text_of sought.now.text.now) from seat.old }
    ensures ends { Ends domain.now (text_of sought.now.text.now) from result seat.old seat.new }
    ensures walked { IsOnWalk domain.now (text_of sought.now.text.now) from seat.new }
    ensures learns { Learns seat.old.view.client seat.new.view.client }
    ensures keeps { Keeps 0 0 seat.old.view.core.owned seat.old seat.new }
    ensures few { IsFew ((domain.now.shape.cells - from)
        * (18 + 17 * parts_after (length sought.now.text.now)) + 1) seat.old seat.new }
    ensures rest { IsAtRest domain.now seat.new }
{
    for passed in from..domain.shape().cells {
        match look(domain, seat, passed, sought) {
            Sight::Null => return Walk::Null(passed),
            Sight::Record(head) => return Walk::Record(head),
            Sight::Other => {}
        }
    }
    // One more look, whatever it finds: once all cells are passed, it tells what `Around` says.
    let _ = head_in(domain, seat, 0);
    Walk::Around
}
