//! Scripts that make objects, count references to them, and give them up.
use crate::acts::{Act, Said, Spot, WeakSpot};
use crate::rows::{ROW, Row};
use control_word::Quota;

const CELL: Spot = Spot::Cell(0);

const WEAK: WeakSpot = WeakSpot::Cell(0);

pub(crate) const ROWS_COUNTS: [Row; 6] = [
    Row {
        name: "a second object has no slot, and a third no add",
        slots: 1,
        quota: Quota { makes: 2, adds: 3 },
        script: &[
            (Act::Make(0), Said::Slot(0)),
            (Act::Make(0), Said::Full),
            (Act::Copy(0), Said::Slot(0)),
            (Act::Copy(0), Said::Slot(0)),
            (Act::Copy(0), Said::Spent),
            (Act::Count(0), Said::Number(3)),
            (Act::Make(0), Said::AddsSpent),
            (Act::Adds, Said::Number(3)),
        ],
        ..ROW
    },
    Row {
        name: "no make is left, and then no add either",
        slots: 2,
        quota: Quota { makes: 1, adds: 2 },
        script: &[
            (Act::Make(0), Said::Slot(0)),
            (Act::Make(0), Said::MakesSpent),
            (Act::Copy(0), Said::Slot(0)),
            (Act::Make(0), Said::MakesSpent),
        ],
        ..ROW
    },
    Row {
        name: "the first ticket grants two makes, and the second none",
        slots: 4,
        quota: Quota { makes: 0, adds: 9 },
        grants: &[2],
        script: &[
            (Act::Make(0), Said::MakesSpent),
            (Act::Ticket, Said::Number(0)),
            (Act::Make(0), Said::Slot(0)),
            (Act::Make(0), Said::Slot(1)),
            (Act::Make(0), Said::MakesSpent),
            (Act::Ticket, Said::Number(1)),
            (Act::Make(0), Said::MakesSpent),
        ],
        ..ROW
    },
    // Two strong references, that of the cell and the one that was kept; four weak ones, the slot's own among them.
    Row {
        name: "weak references are copied, stored and loaded",
        slots: 1,
        script: &[
            (Act::Make(4), Said::Slot(0)),
            (Act::Weaken(0), Said::Slot(0)),
            (Act::CopyWeak(0), Said::Slot(0)),
            (Act::StoreWeak(WEAK), Said::Done),
            (Act::TryLoadWeak(WEAK), Said::Slot(0)),
            (Act::Store(CELL), Said::Done),
        ],
        depth: 1,
        deep: &[
            (Act::Keep, Said::Slot(0)),
            (Act::Count(0), Said::Number(2)),
            (Act::CountWeak(0), Said::Number(4)),
        ],
        ..ROW
    },
    Row {
        name: "an object ends with its last strong reference, and its slot is given again",
        slots: 1,
        script: &[
            (Act::Reap, Said::Nothing),
            (Act::Make(11), Said::Slot(0)),
            (Act::Read(0), Said::Number(11)),
            (Act::Copy(0), Said::Slot(0)),
            (Act::Count(0), Said::Number(2)),
            (Act::Drop, Said::Done),
            (Act::Dying, Said::Nothing),
            (Act::Drop, Said::Done),
            (Act::Dying, Said::Slot(0)),
            (Act::Reap, Said::Number(11)),
            (Act::Reap, Said::Nothing),
            (Act::Make(7), Said::Slot(0)),
        ],
        ..ROW
    },
    // The upgrade that finds the object ended uses an add all the same.
    Row {
        name: "an object that has ended is not upgraded, and keeps its slot as long as a weak reference stands",
        slots: 1,
        script: &[
            (Act::Make(3), Said::Slot(0)),
            (Act::Weaken(0), Said::Slot(0)),
            (Act::Upgrade(0), Said::Slot(0)),
            (Act::CountBy(0), Said::Number(2)),
            (Act::Drop, Said::Done),
            (Act::Drop, Said::Done),
            (Act::Upgrade(0), Said::Ended),
            (Act::CountBy(0), Said::Number(0)),
            (Act::Adds, Said::Number(4)),
            (Act::Reap, Said::Number(3)),
            (Act::CountWeak(0), Said::Number(1)),
            (Act::Make(0), Said::Full),
            (Act::DropWeak, Said::Done),
            (Act::Make(0), Said::Slot(0)),
        ],
        ..ROW
    },
];
