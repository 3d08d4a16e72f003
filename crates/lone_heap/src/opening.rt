//! A domain of one seat is opened.
ghost use Rattle.std.specs.Prelude.{◌≡◌, ◌≤◌, [], IfOk};
ghost use Rattle.protected_loads.specs.plain_state.Limits.{most_cells, most_slots, most_weak_cells};
ghost use Rattle.protected_loads.specs.plain_state.State.{empty};
ghost use Rattle.lone_heap.specs.Lone.{IsForOne, IsReady, known_plain};
ghost use Rattle.lone_heap.specs.Words.{AreNoted};

use crate::words::Words;
use protected_loads::{
    Domain, NoLaw, OpenError, OutOfMemory, PayloadKind, Quota, Seat, Shape, open_domain,
};
use std::alloc::Global;

/// How many retired entries the seat keeps before it scans, beside one for each announcement word.
const BATCH: u32 = 4;

/// What the seat may use up.
const WIDE: Quota = Quota {
    makes: 1 << 40,
    adds: 1 << 40,
};

/// A domain with nothing in it, its one seat, and words that protect nothing: 1 to 4,194,304 slots, at most 65,536
/// strong cells and 4,194,304 weak ones. `OutOfMemory` comes only of an allocation failure. It takes all the memory
/// that the domain ever needs; linear in the slots and the cells.
pub fn open<K: PayloadKind>(
    alloc: Global,
    slots: u32,
    cells: u32,
    weak_cells: u32,
) -> Result<(Domain<NoLaw<K>>, Seat<NoLaw<K>>, Words), OutOfMemory>
    requires slots { (1 ≤ slots) × (slots ≤ most_slots) }
    requires cells { cells ≤ most_cells }
    requires weak_cells { weak_cells ≤ most_weak_cells }
    ensures one { IfOk result (λ r. IsForOne slots cells weak_cells r.0) }
    ensures empty { IfOk result (λ r. known_plain r.0 r.1 ≡ empty 1 slots cells weak_cells) }
    ensures trail { IfOk result (λ r. r.1.view.core.trail ≡ []) }
    ensures noted { IfOk result (λ r. AreNoted r.2 r.1) }
    ensures ready { IfOk result (λ r. IsReady r.0 r.1) }
{
    let shape = Shape {
        seats: 1,
        slots,
        cells,
        weak_cells,
        batch: BATCH,
    };
    let (domain, mut seats) = match open_domain(alloc, shape, &[WIDE], NoLaw::new()) {
        Ok(opened) => opened,
        Err(OpenError::BadShape(_field)) => unreachable!(),
        Err(OpenError::OutOfMemory) => return Err(OutOfMemory),
    };
    let seat = seats.remove(0);
    Ok((domain, seat, Words::new()))
}
