//! The record of a text, which is made where it has none.
ghost use Rattle.std.specs.Prelude.{◌≡◌, ◌+◌, ◌≤◌, ◌<◌, false, IfErr, IfOk, length};
ghost use Rattle.std.specs.Int.{div_ceil};
ghost use Rattle.cell_making.specs.cell_calls.Cells.{HasBind, IsOver};
ghost use Rattle.cell_making.specs.cell_calls.Keeping.{Keeps};
ghost use Rattle.cell_making.specs.Making.{owned_with};
ghost use Rattle.cell_making.specs.Texts.{text_of};
ghost use Rattle.cell_making.specs.epoch_refs.Walks.{IsFree};
ghost use Rattle.cell_finding.specs.Sought.{IsSought};
ghost use Rattle.cell_intern.specs.Interning.{Grows, Has, IsInRegion, MakesForBinds};
ghost use Rattle.cell_intern.specs.Refusals.{IsWhy};

use crate::placing::add;
use crate::refusal::InternError;
use cell_calls::CellLaw;
use cell_finding::{Sought, Walk, seek, sought_text};
use epoch_refs::{EpochDomain, EpochSeat, Strong, e_keep, enter, exit};
use std::alloc::Global;
use std::sync::Wait;

/// A reference to the record of a text of 1 to 4,096 bytes, which it makes and puts into the first null cell of the
/// text's walk where the text has none. It stays there when the reference is given up. The seat must be one that may
/// put one head more into a cell; then it never finds all cells taken.
///
/// `MakesSpent`, `Full` and `OutOfMemory` come only where the view tells of no record of the text; `AddsSpent` where
/// the seat has no add left. It makes a record at most once: one make and one add for each 120 bytes of the text, and
/// at most two adds more. Where no other seat may put heads into cells, makes are used for a record that goes into a
/// cell.
pub fn intern<R: Wait>(
    rt: &R,
    alloc: Global,
    domain: &EpochDomain<CellLaw>,
    seat: &mut EpochSeat<CellLaw>,
    text: &[u8],
) -> Result<Strong, InternError>
    requires free { IsFree domain.now seat.old }
    requires over { IsOver domain.now × (seat.old.view.client.cleared ≡ false) }
    requires granted { HasBind seat.old }
    requires text { (1 ≤ length text.now) × (length text.now ≤ 4096) }
    ensures has { IfOk result (λ head. Has (text_of text.now) head.slot seat.new) }
    ensures refused { IfErr result (λ error. IsWhy domain.now error seat.old seat.new) }
    ensures grows { Grows (text_of text.now) seat.old.view.client seat.new.view.client }
    ensures makes { MakesForBinds domain.now (text_of text.now) (div_ceil (length text.now) 120)
        result seat.old seat.new }
    ensures keeps { Keeps (div_ceil (length text.now) 120) (div_ceil (length text.now) 120 + 2)
        (owned_with result seat.old.view.core.owned) seat.old seat.new }
    ensures free { IsFree domain.now seat.new }
{
    let sought = sought_text(text);
    enter(domain, seat);
    let record = intern_inside(rt, alloc, domain, seat, &sought);
    exit(domain, seat);
    record
}

/// The same in an open region.
fn intern_inside<R: Wait>(
    rt: &R,
    alloc: Global,
    domain: &EpochDomain<CellLaw>,
    seat: &mut EpochSeat<CellLaw>,
    sought: &Sought<'_>,
) -> Result<Strong, InternError>
    requires region { IsInRegion domain.now seat.old }
    requires granted { HasBind seat.old }
    requires sought { IsSought sought.now.text.now sought.now.head sought.now.hash }
    ensures has { IfOk result (λ head. Has (text_of sought.now.text.now) head.slot seat.new) }
    ensures refused { IfErr result (λ error. IsWhy domain.now error seat.old seat.new) }
    ensures grows { Grows (text_of sought.now.text.now) seat.old.view.client
        seat.new.view.client }
    ensures makes { MakesForBinds domain.now (text_of sought.now.text.now)
        (div_ceil (length sought.now.text.now) 120) result seat.old seat.new }
    ensures keeps { Keeps (div_ceil (length sought.now.text.now) 120)
        (div_ceil (length sought.now.text.now) 120 + 2)
        (owned_with result seat.old.view.core.owned) seat.old seat.new }
    ensures region { IsInRegion domain.now seat.new }
{
    match seek(domain, seat, 0, sought) {
        Walk::Record(head) => Ok(e_keep(domain, seat, head)?),
        Walk::Null(passed) => add(rt, alloc, domain, seat, sought, passed),
        Walk::Around => unreachable!(),
    }
}
