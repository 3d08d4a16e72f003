//! Scripts with places, and with snapshots of what they hold.
use crate::acts::{Act, Said, Spot, WeakSpot};
use crate::rows::{ROW, Row};
use control_word::Quota;

const CELL: Spot = Spot::Cell(0);

const WEAK: WeakSpot = WeakSpot::Cell(0);

pub(crate) const ROWS_PLACES: [Row; 8] = [
    // Six references: that of the cell, that of the counted snapshot, and four that were kept.
    Row {
        name: "a fourth snapshot is counted",
        slots: 2,
        quota: Quota { makes: 2, adds: 7 },
        script: &[
            (Act::Make(4), Said::Slot(0)),
            (Act::Store(CELL), Said::Done),
            (Act::Make(9), Said::Slot(1)),
            (Act::Adds, Said::Number(2)),
            (Act::Replace(CELL, None), Said::Lost(1)),
            (Act::Read(0), Said::Number(9)),
        ],
        depth: 3,
        deep: &[
            (Act::Take(CELL), Said::Counted(0)),
            (Act::Adds, Said::Number(3)),
            (Act::Keep, Said::Slot(0)),
            (Act::Keep, Said::Slot(0)),
            (Act::Keep, Said::Slot(0)),
            (Act::Keep, Said::Slot(0)),
            (Act::Adds, Said::Number(7)),
            (Act::Keep, Said::Spent),
            (Act::Take(CELL), Said::Spent),
            (Act::LookOn(CELL), Said::Spent),
            (Act::Count(1), Said::Number(6)),
        ],
        ..ROW
    },
    Row {
        name: "places that are null",
        slots: 1,
        quota: Quota { makes: 1, adds: 2 },
        script: &[
            (Act::TryLoad(CELL), Said::Null),
            (Act::Load(CELL), Said::Null),
            (Act::Look(CELL), Said::Null),
            (Act::LookOn(CELL), Said::Null),
            (Act::TryLoadWeak(WEAK), Said::Null),
            (Act::LoadWeak(WEAK), Said::Null),
            (Act::Watch(WEAK), Said::Null),
            (Act::Adds, Said::Number(0)),
            (Act::Make(0), Said::Slot(0)),
            (Act::Load(Spot::Field(0, 1)), Said::Null),
            (Act::LoadWeak(WeakSpot::Field(0)), Said::Null),
        ],
        ..ROW
    },
    Row {
        name: "references are loaded until no add is left, and snapshots go on",
        slots: 1,
        quota: Quota { makes: 1, adds: 3 },
        script: &[
            (Act::Make(0), Said::Slot(0)),
            (Act::Store(CELL), Said::Done),
            (Act::TryLoad(CELL), Said::Slot(0)),
            (Act::Load(CELL), Said::Slot(0)),
            (Act::TryLoad(CELL), Said::Spent),
            (Act::Load(CELL), Said::Spent),
            (Act::Look(CELL), Said::Slot(0)),
            (Act::LookOn(CELL), Said::Slot(0)),
        ],
        ..ROW
    },
    Row {
        name: "weak references are loaded until no add is left, and weak snapshots go on",
        slots: 1,
        quota: Quota { makes: 1, adds: 3 },
        script: &[
            (Act::Make(0), Said::Slot(0)),
            (Act::Weaken(0), Said::Slot(0)),
            (Act::StoreWeak(WEAK), Said::Done),
            (Act::LoadWeak(WEAK), Said::Slot(0)),
            (Act::TryLoadWeak(WEAK), Said::Spent),
            (Act::LoadWeak(WEAK), Said::Spent),
            (Act::Watch(WEAK), Said::Slot(0)),
        ],
        ..ROW
    },
    // A seat scans with the fifth entry: one for each of its four announcement words, and a batch of one.
    Row {
        name: "a scan comes with the entry that makes it due",
        slots: 1,
        script: &[
            (Act::Make(0), Said::Slot(0)),
            (Act::Copy(0), Said::Slot(0)),
            (Act::Store(CELL), Said::Done),
            (Act::Deferred, Said::Number(0)),
            (Act::Copy(0), Said::Slot(0)),
            (Act::Store(CELL), Said::Done),
            (Act::Clear(CELL), Said::Done),
            (Act::Deferred, Said::Number(2)),
            (Act::Copy(0), Said::Slot(0)),
            (Act::Store(CELL), Said::Done),
            (Act::Clear(CELL), Said::Done),
            (Act::Copy(0), Said::Slot(0)),
            (Act::Store(CELL), Said::Done),
            (Act::Clear(CELL), Said::Done),
            (Act::Deferred, Said::Number(4)),
            (Act::Count(0), Said::Number(5)),
            (Act::Copy(0), Said::Slot(0)),
            (Act::Store(CELL), Said::Done),
            (Act::Clear(CELL), Said::Done),
            (Act::Deferred, Said::Number(0)),
            (Act::Count(0), Said::Number(1)),
        ],
        ..ROW
    },
    Row {
        name: "a place is replaced where it holds what is expected",
        slots: 2,
        script: &[
            (Act::Make(0), Said::Slot(0)),
            (Act::Replace(CELL, Some(0)), Said::Lost(0)),
            (Act::Replace(CELL, None), Said::Done),
            (Act::Make(0), Said::Slot(1)),
            (Act::Replace(CELL, Some(1)), Said::Lost(1)),
            (Act::Replace(CELL, Some(0)), Said::Done),
            (Act::Deferred, Said::Number(1)),
            (Act::Load(CELL), Said::Slot(1)),
            (Act::Weaken(0), Said::Slot(1)),
            (Act::ReplaceWeak(WEAK, Some(0)), Said::Lost(0)),
            (Act::ReplaceWeak(WEAK, None), Said::Done),
            (Act::LoadWeak(WEAK), Said::Slot(1)),
            (Act::ReplaceWeak(WEAK, None), Said::Lost(2)),
            (Act::ReplaceWeak(WEAK, Some(1)), Said::Done),
            (Act::Deferred, Said::Number(2)),
        ],
        ..ROW
    },
    Row {
        name: "under a weak snapshot an object that has ended waits",
        slots: 1,
        script: &[
            (Act::Make(6), Said::Slot(0)),
            (Act::Weaken(0), Said::Slot(0)),
            (Act::StoreWeak(WEAK), Said::Done),
            (Act::Outlive(WEAK), Said::Slot(0)),
            (Act::Watch(WEAK), Said::Nothing),
            (Act::Adds, Said::Number(2)),
            (Act::Reap, Said::Number(6)),
        ],
        ..ROW
    },
    // Slot 0 is in the cell, and slot 1 has ended. Where all words are in use an add asks.
    Row {
        name: "a fourth weak snapshot is counted",
        slots: 2,
        quota: Quota { makes: 2, adds: 6 },
        script: &[
            (Act::Make(0), Said::Slot(0)),
            (Act::Weaken(0), Said::Slot(0)),
            (Act::StoreWeak(WEAK), Said::Done),
            (Act::Store(CELL), Said::Done),
            (Act::Make(0), Said::Slot(1)),
            (Act::Weaken(0), Said::Slot(1)),
            (Act::StoreWeak(WeakSpot::Cell(1)), Said::Done),
            (Act::Drop, Said::Done),
            (Act::Adds, Said::Number(4)),
        ],
        depth: 3,
        deep: &[
            (Act::Watch(WEAK), Said::Counted(0)),
            (Act::Watch(WeakSpot::Cell(1)), Said::Nothing),
            (Act::Adds, Said::Number(6)),
            (Act::Watch(WEAK), Said::Spent),
        ],
        ..ROW
    },
];
