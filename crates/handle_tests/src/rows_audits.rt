//! Scripts after which an audit tells what is left.
use crate::acts::{Act, Said, Spot, WeakSpot};
use crate::rows::{ROW, Row};
use control_word::Quota;

const CELL: Spot = Spot::Cell(0);

pub(crate) const ROWS_AUDITS: [Row; 5] = [
    Row {
        name: "a settle destroys each object of a chain once",
        slots: 4,
        script: &[
            (Act::Make(900), Said::Slot(0)),
            (Act::Make(70), Said::Slot(1)),
            (Act::Make(5), Said::Slot(2)),
            (Act::Store(Spot::Field(1, 0)), Said::Done),
            (Act::Store(Spot::Field(0, 1)), Said::Done),
            (Act::Weaken(0), Said::Slot(0)),
            (Act::StoreWeak(WeakSpot::Field(0)), Said::Done),
            (Act::Audit(0), Said::Found((3, 0, 0, 975), (0, 0))),
            (Act::Drop, Said::Done),
            (Act::Settle, Said::Number(975)),
            (Act::Settle, Said::Number(0)),
            (Act::Audit(0), Said::Found((0, 0, 0, 0), (0, 0))),
        ],
        ..ROW
    },
    Row {
        name: "a settle leaves an object that holds itself",
        slots: 4,
        script: &[
            (Act::Make(5), Said::Slot(0)),
            (Act::Copy(0), Said::Slot(0)),
            (Act::Store(Spot::Field(0, 0)), Said::Done),
            (Act::Drop, Said::Done),
            (Act::Settle, Said::Number(0)),
            (Act::Audit(3), Said::Found((1, 0, 1, 5), (0, 1))),
        ],
        cyclic: true,
        ..ROW
    },
    // Of four objects one is held, the decrement of one waits under the snapshot, and two hold each other.
    Row {
        name: "what is held, what waits, and a ring",
        slots: 4,
        quota: Quota { makes: 4, adds: 5 },
        script: &[
            (Act::Make(1), Said::Slot(0)),
            (Act::Make(10), Said::Slot(1)),
            (Act::Store(CELL), Said::Done),
        ],
        depth: 1,
        deep: &[
            (Act::Clear(CELL), Said::Done),
            (Act::Make(100), Said::Slot(2)),
            (Act::Make(1000), Said::Slot(3)),
            (Act::Copy(1), Said::Slot(2)),
            (Act::Store(Spot::Field(2, 0)), Said::Done),
            (Act::Store(Spot::Field(1, 0)), Said::Done),
            (Act::Drop, Said::Done),
            (Act::Audit(2), Said::Found((4, 1, 2, 1111), (2, 2))),
            (Act::Audit(3), Said::Found((4, 1, 2, 1111), (3, 2))),
        ],
        cyclic: true,
        ..ROW
    },
    Row {
        name: "a settle takes what is dying, and leaves what waits and a ring",
        slots: 4,
        quota: Quota { makes: 4, adds: 5 },
        script: &[
            (Act::Make(1), Said::Slot(0)),
            (Act::Drop, Said::Done),
            (Act::Audit(0), Said::Never),
            (Act::Make(10), Said::Slot(1)),
            (Act::Store(CELL), Said::Done),
        ],
        depth: 1,
        deep: &[
            (Act::Clear(CELL), Said::Done),
            (Act::Make(100), Said::Slot(2)),
            (Act::Make(1000), Said::Slot(3)),
            (Act::Copy(0), Said::Slot(2)),
            (Act::Store(Spot::Field(1, 0)), Said::Done),
            (Act::Store(Spot::Field(0, 0)), Said::Done),
            (Act::Drop, Said::Done),
            (Act::Settle, Said::Number(1)),
            (Act::Audit(2), Said::Found((3, 1, 2, 1110), (2, 2))),
        ],
        cyclic: true,
        ..ROW
    },
    Row {
        name: "an empty heap",
        slots: 4,
        script: &[
            (Act::Audit(0), Said::Found((0, 0, 0, 0), (0, 0))),
            (Act::Collect, Said::Done),
            (Act::Settle, Said::Number(0)),
        ],
        ..ROW
    },
];
