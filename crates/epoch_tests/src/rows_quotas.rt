//! Scripts in which a seat has used up its quota, or no slot is free.
use crate::rows::{ROW, Row};
use epoch_players::Who::{First, Second};
use epoch_players::{Act, Said, Spot};
use epoch_refs::Quota;

const CELL: Spot = Spot::Cell(0);

pub(crate) const ROWS_QUOTAS: [Row; 3] = [
    Row {
        name: "no make and no add is left, and all else goes on",
        quota: Quota { makes: 2, adds: 3 },
        script: &[
            (First, Act::Make(1), Said::Slot(0)),
            (First, Act::Copy(0), Said::Slot(0)),
            (First, Act::Make(2), Said::Slot(1)),
            (First, Act::Make(3), Said::MakesSpent),
            (First, Act::Copy(0), Said::Spent),
            (First, Act::Store(CELL), Said::Done),
            (First, Act::Enter, Said::Done),
            (First, Act::Look(CELL), Said::Slot(1)),
            (First, Act::Keep(0), Said::Spent),
            (First, Act::ReadSeen(0), Said::Number(2)),
            (First, Act::Exit, Said::Done),
            (First, Act::Adds, Said::Number(3)),
            (First, Act::Makes, Said::Number(2)),
            (First, Act::Drop, Said::Done),
            (First, Act::Drop, Said::Done),
            (First, Act::Clear(CELL), Said::Done),
            (First, Act::Waiting, Said::Number(2)),
            (First, Act::Flush, Said::Work(1, 0, 1)),
            (First, Act::Flush, Said::Work(2, 1, 2)),
        ],
        ..ROW
    },
    Row {
        name: "no add is left for a make",
        quota: Quota { makes: 2, adds: 1 },
        script: &[
            (First, Act::Make(1), Said::Slot(0)),
            (First, Act::Make(2), Said::AddsSpent),
            (First, Act::Makes, Said::Number(1)),
            (First, Act::Adds, Said::Number(1)),
            (Second, Act::Make(2), Said::Slot(1)),
        ],
        ..ROW
    },
    Row {
        name: "an ended object takes its slot until a flush has destroyed it",
        slots: 1,
        script: &[
            (First, Act::Make(1), Said::Slot(0)),
            (First, Act::Make(2), Said::Full),
            (Second, Act::Make(2), Said::Full),
            (First, Act::Makes, Said::Number(1)),
            (First, Act::Drop, Said::Done),
            (First, Act::Make(2), Said::Full),
            (First, Act::Flush, Said::Work(1, 0, 1)),
            (Second, Act::Make(2), Said::Slot(0)),
            (Second, Act::Makes, Said::Number(1)),
            (Second, Act::Adds, Said::Number(1)),
        ],
        ..ROW
    },
];
