//! A domain with an empty map.
ghost use Rattle.std.specs.Prelude.{◌≡◌, ◌+◌, All, IfOk, length};
ghost use Rattle.seat_life.specs.Free.{IsRoot};
ghost use Rattle.version_map.specs.Playing.{Plays};
ghost use Rattle.version_map.specs.version_reading.Reading.{IsOver};

use seat_life::{OpenError, Opened, Quota, Shape, open_seats};
use std::alloc::Global;
use version_map::MapLaw;

/// As much as a seat may ever have.
pub const WIDE: Quota = Quota {
    makes: 1 << 40,
    adds: 1 << 40,
};

/// A domain of so many seats and slots, whose only cell, 0, is the root of an empty map; seat 0 with a quota of its
/// own, and the other seats in order, each with the same quota. All of them play. Refused as `open_domain` is:
/// `BadShape` where the seats aren't 1 to 32, the slots not 1 to 2^22, or a quota is above 2^40, and `OutOfMemory`.
pub fn open_map(
    alloc: Global,
    seats: u32,
    slots: u32,
    root: Quota,
    each: Quota,
) -> Result<Opened<MapLaw>, OpenError>
    ensures over { IfOk result (λ opened. IsOver 0 opened.domain
        × (opened.domain.shape.cells ≡ 1)) }
    ensures root { IfOk result (λ opened. Plays opened.domain opened.root
        × IsRoot opened.domain opened.root) }
    ensures others { IfOk result (λ opened. All (Plays opened.domain) opened.others.items) }
    ensures count { IfOk result (λ opened. (length opened.others.items + 1 ≡ seats)
        × (length opened.root.view.core.left_seats ≡ 0)) }
{
    let shape = Shape {
        seats,
        slots,
        cells: 1,
        weak_cells: 0,
        batch: 16,
    };
    let opened = open_seats(alloc, shape, root, each, MapLaw::over(0))?;
    Ok(opened)
}
