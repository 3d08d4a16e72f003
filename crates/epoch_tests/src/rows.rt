//! Scripts for two seats, each act beside the answer that was worked out by the rules: an entry is dated with the epoch
//! that stands once it has left its place; a flush makes the epoch one later where each open region began in it, and
//! then pays what was dated two epochs before.
use epoch_players::Who::{First, Second};
use epoch_players::{Act, Line, Said, Spot, WIDE};
use epoch_refs::Quota;

/// A script for two seats, of which the first has this quota, in a domain with so many slots and two cells.
#[derive(Clone, Copy, Drop)]
pub(crate) struct Row {
    pub(crate) name: &'static str,
    pub(crate) slots: u32,
    pub(crate) quota: Quota,
    pub(crate) script: &'static [Line],
}

/// Nothing is done by seats that may do as much as they like.
pub(crate) const ROW: Row = Row {
    name: "",
    slots: 4,
    quota: WIDE,
    script: &[],
};

const CELL: Spot = Spot::Cell(0);

const NULL: Spot = Spot::Cell(1);

pub(crate) const ROWS: [Row; 9] = [
    Row {
        name: "copies are counted, and the last drop ends the object",
        script: &[
            (First, Act::Make(7), Said::Slot(0)),
            (First, Act::Copy(0), Said::Slot(0)),
            (First, Act::Copy(1), Said::Slot(0)),
            (First, Act::Adds, Said::Number(3)),
            (First, Act::Makes, Said::Number(1)),
            (First, Act::Drop, Said::Done),
            (First, Act::Drop, Said::Done),
            (First, Act::Read(0), Said::Number(7)),
            (First, Act::Waiting, Said::Number(0)),
            (First, Act::Flush, Said::Work(1, 0, 0)),
            (First, Act::Drop, Said::Done),
            (First, Act::Waiting, Said::Number(1)),
            (First, Act::Flush, Said::Work(2, 0, 7)),
            (First, Act::Waiting, Said::Number(0)),
            (First, Act::Make(8), Said::Slot(0)),
        ],
        ..ROW
    },
    Row {
        name: "what is kept in a region lives on after it",
        script: &[
            (First, Act::Make(4), Said::Slot(0)),
            (First, Act::Store(CELL), Said::Done),
            (Second, Act::Enter, Said::Done),
            (Second, Act::Look(NULL), Said::Null),
            (Second, Act::Look(CELL), Said::Slot(0)),
            (Second, Act::Look(CELL), Said::Slot(0)),
            (Second, Act::Keep(1), Said::Slot(0)),
            (Second, Act::Adds, Said::Number(1)),
            (First, Act::Clear(CELL), Said::Done),
            (Second, Act::Exit, Said::Done),
            (First, Act::Flush, Said::Work(1, 0, 0)),
            (First, Act::Flush, Said::Work(2, 1, 0)),
            (Second, Act::Read(0), Said::Number(4)),
            (Second, Act::Drop, Said::Done),
            (Second, Act::Waiting, Said::Number(1)),
            (Second, Act::Flush, Said::Work(3, 0, 4)),
        ],
        ..ROW
    },
    Row {
        name: "a region sees fields, and keeps what left them",
        script: &[
            (First, Act::Make(3), Said::Slot(0)),
            (First, Act::Make(9), Said::Slot(1)),
            (First, Act::Store(Spot::Field(0, 1)), Said::Done),
            (First, Act::Copy(0), Said::Slot(0)),
            (First, Act::Store(CELL), Said::Done),
            (Second, Act::Enter, Said::Done),
            (Second, Act::Look(CELL), Said::Slot(0)),
            (Second, Act::Look(Spot::SeenField(0, 0)), Said::Null),
            (Second, Act::Look(Spot::SeenField(0, 1)), Said::Slot(1)),
            (Second, Act::Look(Spot::SeenField(1, 0)), Said::Null),
            (First, Act::Clear(Spot::Field(0, 1)), Said::Done),
            (First, Act::Flush, Said::Work(1, 0, 0)),
            (First, Act::Flush, Said::Work(1, 0, 0)),
            (Second, Act::Look(Spot::SeenField(0, 1)), Said::Null),
            (Second, Act::ReadSeen(1), Said::Number(9)),
            (Second, Act::Exit, Said::Done),
            (First, Act::Flush, Said::Work(2, 1, 9)),
        ],
        ..ROW
    },
    Row {
        name: "what an object held is given up two epochs after it",
        script: &[
            (First, Act::Make(3), Said::Slot(0)),
            (First, Act::Make(9), Said::Slot(1)),
            (First, Act::Store(Spot::Field(0, 0)), Said::Done),
            (First, Act::Drop, Said::Done),
            (First, Act::Flush, Said::Work(1, 0, 3)),
            (First, Act::Waiting, Said::Number(1)),
            (First, Act::Flush, Said::Work(2, 0, 0)),
            (First, Act::Flush, Said::Work(3, 1, 9)),
            (First, Act::Waiting, Said::Number(0)),
        ],
        ..ROW
    },
    Row {
        name: "exchanges that are done, and that are lost",
        script: &[
            (First, Act::Make(2), Said::Slot(0)),
            (First, Act::Replace(CELL, Some(1)), Said::Lost(0)),
            (First, Act::Replace(CELL, None), Said::Done),
            (First, Act::Make(8), Said::Slot(1)),
            (First, Act::Replace(CELL, None), Said::Lost(1)),
            (First, Act::Read(0), Said::Number(8)),
            (First, Act::Empty(CELL, Some(1)), Said::Lost(1)),
            (First, Act::Waiting, Said::Number(0)),
            (First, Act::Replace(CELL, Some(0)), Said::Done),
            (Second, Act::Empty(CELL, Some(0)), Said::Lost(2)),
            (First, Act::Empty(CELL, Some(1)), Said::Done),
            (First, Act::Empty(CELL, None), Said::Done),
            (First, Act::Clear(CELL), Said::Done),
            (First, Act::Waiting, Said::Number(2)),
            (First, Act::Flush, Said::Work(1, 0, 0)),
            (First, Act::Flush, Said::Work(2, 2, 10)),
        ],
        ..ROW
    },
    Row {
        name: "a reference takes the place of another to the same object",
        script: &[
            (First, Act::Make(1), Said::Slot(0)),
            (First, Act::Copy(0), Said::Slot(0)),
            (First, Act::Store(CELL), Said::Done),
            (First, Act::Store(CELL), Said::Done),
            (First, Act::Waiting, Said::Number(1)),
            (First, Act::Flush, Said::Work(1, 0, 0)),
            (First, Act::Flush, Said::Work(2, 1, 0)),
            (Second, Act::Enter, Said::Done),
            (Second, Act::Look(CELL), Said::Slot(0)),
            (Second, Act::ReadSeen(0), Said::Number(1)),
        ],
        ..ROW
    },
    Row {
        name: "each entry is paid two epochs after its date",
        script: &[
            (First, Act::Make(1), Said::Slot(0)),
            (First, Act::Store(CELL), Said::Done),
            (Second, Act::Flush, Said::Work(1, 0, 0)),
            (First, Act::Make(2), Said::Slot(1)),
            (First, Act::Store(CELL), Said::Done),
            (First, Act::Flush, Said::Work(2, 0, 0)),
            (First, Act::Clear(CELL), Said::Done),
            (First, Act::Flush, Said::Work(3, 1, 1)),
            (Second, Act::Flush, Said::Work(4, 0, 0)),
            (First, Act::Flush, Said::Work(5, 1, 2)),
        ],
        ..ROW
    },
    Row {
        name: "a seat's own region keeps what it has seen",
        script: &[
            (First, Act::Make(6), Said::Slot(0)),
            (First, Act::Store(CELL), Said::Done),
            (First, Act::Enter, Said::Done),
            (First, Act::Look(CELL), Said::Slot(0)),
            (First, Act::Clear(CELL), Said::Done),
            (First, Act::Flush, Said::Work(1, 0, 0)),
            (First, Act::Flush, Said::Work(1, 0, 0)),
            (First, Act::ReadSeen(0), Said::Number(6)),
            (First, Act::Keep(0), Said::Slot(0)),
            (First, Act::Exit, Said::Done),
            (First, Act::Flush, Said::Work(2, 1, 0)),
            (First, Act::Read(0), Said::Number(6)),
            (First, Act::Drop, Said::Done),
            (First, Act::Flush, Said::Work(3, 0, 6)),
        ],
        ..ROW
    },
    Row {
        name: "a region that began later doesn't keep what had left before",
        script: &[
            (First, Act::Make(6), Said::Slot(0)),
            (First, Act::Store(CELL), Said::Done),
            (First, Act::Clear(CELL), Said::Done),
            (First, Act::Flush, Said::Work(1, 0, 0)),
            (Second, Act::Enter, Said::Done),
            (First, Act::Flush, Said::Work(2, 1, 6)),
            (First, Act::Flush, Said::Work(2, 0, 0)),
            (Second, Act::Exit, Said::Done),
            (First, Act::Flush, Said::Work(3, 0, 0)),
        ],
        ..ROW
    },
];
