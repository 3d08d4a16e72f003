//! The row of each word.
ghost use Rattle.std.specs.Prelude.{◌≡◌, ◌<◌, IfOk, length};
ghost use Rattle.std.specs.List.{All};
ghost use Rattle.cell_records.specs.Rows.{AreRowsOf, IsIn, IsRowOf};

use crate::records::WordRecord;
use cell_rest::Heap;
use std::alloc::Global;
use tally_sums::{OutOfMemory, Row};

/// A row for each record: how often its word was counted, how many references its slot has in the image of a heap, and
/// the word. Linear in the records.
pub fn count_rows<'a>(
    alloc: Global,
    image: &Heap,
    records: Vec<WordRecord<'a>>,
) -> Result<Vec<Row<'a>>, OutOfMemory>
    requires { All (IsIn image.now) records.items }
    ensures { IfOk result (λ rows. AreRowsOf image.now records.entry.items rows.items) }
{
    let mut rows = Vec::with_capacity(alloc, records.len())?;
    for of in records {
        rows.push_reserved(count_row(image, of));
    }
    Ok(rows)
}

/// The row of a record.
fn count_row<'a>(image: &Heap, of: WordRecord<'a>) -> Row<'a>
    requires { IsIn image.now of }
    ensures { IsRowOf image.now of.entry result }
{
    Row {
        occurrences: of.occurrences,
        holders: image.slots[of.slot.0 as usize].strong,
        word: of.word,
    }
}
