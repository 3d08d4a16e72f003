//! What a seat knows of the records in cells, and what it did. No value of these types is made: contracts alone see
//! them.
use directory_law::Rope;
use plain_protocol::SlotId;
use std::collections::LinkedList;

/// What was seen of a record in a cell.
#[derive(Drop)]
pub struct Sight {
    /// The number of the cell in the range, from 0 on.
    pub cell: u64,
    /// The head that the cell held, and the parts behind it as far as fields 1 were looked at, in order.
    pub slots: LinkedList<SlotId>,
}

/// What a seat knows and did.
#[derive(Drop)]
pub struct View {
    /// How many heads it may put into cells in all.
    pub grant: u64,
    /// The slots that it made and that stand nowhere, in no cell and in no field 1, the last one first.
    pub noted: LinkedList<Rope>,
    /// The heads that it put into cells, with their texts, the last one first.
    pub bound: LinkedList<Rope>,
    /// Those that seats had put there which have left, in seat 0's view alone.
    pub joined: LinkedList<Rope>,
    /// What it saw in cells, the last sight first.
    pub seen: LinkedList<Sight>,
    /// The records that it found in cells and read to their ends, with their texts.
    pub found: LinkedList<Rope>,
    /// Seat 0 has begun to clear the cells, in its own view alone.
    pub cleared: bool,
}
