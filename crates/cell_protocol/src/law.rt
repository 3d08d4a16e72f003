//! Records of texts in cells as a protocol.
ghost use Rattle.std.specs.Prelude.{◌≡◌, ◌≤◌, ◌<◌, ◌+◌, ⊤};
ghost use Rattle.cell_law.specs.Views.{gone, joined};
ghost use Rattle.cell_law.specs.Cells.{range};
ghost use Rattle.cell_law.specs.Law.{CellLaw as Law};
ghost use Rattle.cell_law.specs.Owned.{first_view};
ghost use Rattle.cell_law.proofs.Start.{starts_law};
ghost use Rattle.cell_law.proofs.Others.{calm_keeps, foreign_keeps};
ghost use Rattle.cell_law.proofs.Leave.{leave_keeps};

use cell_law::View;
use directory_protocol::RecordKind;
use plain_protocol::Protocol;

/// The law of records in a range of strong cells, over a domain that has no other client.
#[derive(Debug, Drop)]
pub struct CellLaw {
    /// The first cell of the range.
    pub first: u32,
    /// How many they are.
    pub cells: u32,
    /// How many heads each seat may put there, by the seat's number. A seat that has no number here may put none.
    pub grants: Vec<u64>,
}

impl CellLaw {
    /// The cells `first .. first + cells` hold the records, and seat n may put so many there as stand at its place in
    /// `grants`. It takes no step.
    pub fn over(first: u32, cells: u32, grants: Vec<u64>) -> CellLaw
        ensures { (result.first ≡ first) × (result.cells ≡ cells)
            × (result.grants ≡ grants) }
    {
        CellLaw {
            first,
            cells,
            grants,
        }
    }
}

impl Protocol for CellLaw {
    type View = View;

    type Kind = RecordKind;

    ghost first = { λ it. first_view (range it.first it.cells it.grants.items) };

    ghost law = { λ it. Law (range it.first it.cells it.grants.items) };

    ghost joined = { λ it. joined };

    ghost gone = { gone };

    ghost owns_cell = { λ it i. (it.first ≤ i) × (i < it.first + it.cells) };

    ghost owns_weak_cell = { λ it i. ⊥ };

    ghost owns_payload = { λ it words. ⊤ };

    ghost owns_tickets = { λ it. ⊥ };

    ghost start = { λ it. starts_law (range it.first it.cells it.grants.items) };

    ghost calm = { λ it. calm_keeps (range it.first it.cells it.grants.items) };

    ghost leave = { λ it. leave_keeps (range it.first it.cells it.grants.items) };

    ghost foreign = { λ it. foreign_keeps (range it.first it.cells it.grants.items) };
}
