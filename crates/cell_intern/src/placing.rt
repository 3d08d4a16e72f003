//! A record that is made and put into a cell.
ghost use Rattle.std.specs.Prelude.{◌+◌, IfErr, IfOk, length};
ghost use Rattle.std.specs.Int.{div_ceil};
ghost use Rattle.cell_making.specs.cell_calls.Cells.{HasBind};
ghost use Rattle.cell_making.specs.cell_calls.Keeping.{Keeps};
ghost use Rattle.cell_making.specs.cell_calls.cell_law.Views.{TellsNone};
ghost use Rattle.cell_making.specs.Making.{owned_with};
ghost use Rattle.cell_making.specs.Texts.{text_of};
ghost use Rattle.cell_finding.specs.Sought.{IsSought};
ghost use Rattle.cell_intern.specs.Interning.{Grows, Has, IsInRegion, MakesForBinds};
ghost use Rattle.cell_intern.specs.Placing.{IsPlaced, IsUnplaced, owned_then};
ghost use Rattle.cell_making.specs.Bindings.{HasHead};
ghost use Rattle.cell_finding.specs.Finding.{IsOnWalk};
ghost use Rattle.cell_making.specs.epoch_refs.epoch_core.core_events.Views.{without};
ghost use Rattle.cell_intern.specs.Refusals.{IsWhy};

use crate::refusal::InternError;
use cell_calls::CellLaw;
use cell_finding::{Sought, Walk, seek};
use cell_making::{BindError, bind, make_record};
use epoch_refs::{EpochDomain, EpochSeat, Strong, e_copy, e_drop, e_keep};
use record_texts::cell_on;
use std::alloc::Global;
use std::sync::Wait;

/// Makes a record of a text whose walk has passed so many cells and come to a null one, and puts it into a cell.
pub(crate) fn add<R: Wait>(
    rt: &R,
    alloc: Global,
    domain: &EpochDomain<CellLaw>,
    seat: &mut EpochSeat<CellLaw>,
    sought: &Sought<'_>,
    passed: u32,
) -> Result<Strong, InternError>
    requires region { IsInRegion domain.now seat.old }
    requires granted { HasBind seat.old }
    requires sought { IsSought sought.now.text.now sought.now.head sought.now.hash }
    requires walk { IsOnWalk domain.now (text_of sought.now.text.now) passed seat.old }
    requires untold { TellsNone seat.old.view.client (text_of sought.now.text.now) }
    ensures has { IfOk result (λ head. Has (text_of sought.now.text.now) head.slot seat.new) }
    ensures refused { IfErr result (λ error. IsWhy domain.now error seat.old seat.new) }
    ensures grows { Grows (text_of sought.now.text.now) seat.old.view.client
        seat.new.view.client }
    ensures makes { MakesForBinds domain.now (text_of sought.now.text.now)
        (div_ceil (length sought.now.text.now) 120) result seat.old seat.new }
    ensures keeps { Keeps (div_ceil (length sought.now.text.now) 120)
        (div_ceil (length sought.now.text.now) 120 + 2)
        (owned_with result seat.old.view.core.owned) seat.old seat.new }
    ensures region { IsInRegion domain.now seat.new }
{
    let head = make_record(alloc, domain, seat, sought.text)?;
    let Ok(copy) = e_copy(domain, seat, &head) else {
        e_drop(domain, seat, head);
        return Err(InternError::AddsSpent);
    };
    match place(rt, alloc, domain, seat, sought, passed, head) {
        Ok(None) => Ok(copy),
        Ok(Some(found)) => {
            e_drop(domain, seat, copy);
            Ok(found)
        }
        Err(error) => {
            e_drop(domain, seat, copy);
            Err(error)
        }
    }
}

/// Puts the head into the first null cell of the text's walk, from the one on that comes after so many others; or
/// gains a reference to the record of the text, where another seat has put that into a cell before. The head is given
/// up then, and so it is where the call is refused. A cell that was null and isn't at the exchange was another
/// seat's.
fn place<R: Wait>(
    rt: &R,
    alloc: Global,
    domain: &EpochDomain<CellLaw>,
    seat: &mut EpochSeat<CellLaw>,
    sought: &Sought<'_>,
    from: u32,
    candidate: Strong,
) -> Result<Option<Strong>, InternError>
    requires region { IsInRegion domain.now seat.old }
    requires granted { HasBind seat.old }
    requires sought { IsSought sought.now.text.now sought.now.head sought.now.hash }
    requires walk { IsOnWalk domain.now (text_of sought.now.text.now) from seat.old }
    requires untold { TellsNone seat.old.view.client (text_of sought.now.text.now) }
    requires head { HasHead (text_of sought.now.text.now) candidate.slot seat.old }
    ensures placed { IfOk result (λ found. IsPlaced domain.now (text_of sought.now.text.now)
        candidate.slot found seat.old seat.new) }
    ensures unplaced { IfErr result (λ error. IsUnplaced domain.now (text_of sought.now.text.now)
        error seat.old seat.new) }
    ensures refused { IfErr result (λ error. IsWhy domain.now error seat.old seat.new) }
    ensures grows { Grows (text_of sought.now.text.now) seat.old.view.client
        seat.new.view.client }
    ensures keeps { Keeps 0 1 (owned_then result (without candidate.slot seat.old.view.core.owned))
        seat.old seat.new }
    ensures region { IsInRegion domain.now seat.new }
{
    let mut head = candidate;
    let mut passed = from;
    for _try in rt.forever() {
        match seek(domain, seat, passed, sought) {
            Walk::Null(further) => {
                let cell = cell_on(sought.hash, further, domain.shape().cells);
                passed = further;
                match bind(alloc, domain, seat, cell, head) {
                    Ok(()) => return Ok(None),
                    Err(BindError::Lost(back)) => head = back,
                    Err(BindError::OutOfMemory(back)) => {
                        e_drop(domain, seat, back);
                        return Err(InternError::OutOfMemory);
                    }
                }
            }
            Walk::Record(found) => {
                let kept = e_keep(domain, seat, found);
                e_drop(domain, seat, head);
                let Ok(record) = kept else {
                    return Err(InternError::AddsSpent);
                };
                return Ok(Some(record));
            }
            Walk::Around => unreachable!(),
        }
    }
    unreachable!()
}
