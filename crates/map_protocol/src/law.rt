//! An ordered map of versions as a protocol.
ghost use Rattle.std.specs.Prelude.{◌≡◌};
ghost use Rattle.map_law.specs.Views.{first_view, gone, joined};
ghost use Rattle.map_law.specs.Nodes.{IsNode};
ghost use Rattle.map_law.specs.Law.{MapLaw as Law};
ghost use Rattle.map_law.proofs.Start.{starts};
ghost use Rattle.map_law.proofs.Leave.{leave_keeps};
ghost use Rattle.map_law.proofs.Others.{calm_keeps, foreign_keeps};

use crate::node_kind::NodeKind;
use map_law::View;
use plain_protocol::Protocol;

/// The law of a map whose root stands in a strong cell.
#[derive(Debug, Drop)]
pub struct MapLaw {
    /// The cell.
    pub cell: u32,
}

impl MapLaw {
    /// The root stands in this cell. It takes no step.
    pub fn over(cell: u32) -> MapLaw
        ensures { result.cell ≡ cell }
    {
        MapLaw { cell }
    }
}

impl Protocol for MapLaw {
    type View = View;

    type Kind = NodeKind;

    ghost first = { λ it. first_view };

    ghost law = { λ it. Law it.cell };

    ghost joined = { λ it. joined };

    ghost gone = { gone };

    ghost owns_cell = { λ it i. i ≡ it.cell };

    ghost owns_weak_cell = { λ it i. ⊥ };

    ghost owns_payload = { λ it. IsNode };

    ghost owns_tickets = { λ it. ⊥ };

    ghost start = { λ it. starts it.cell };

    ghost calm = { λ it. calm_keeps it.cell };

    ghost leave = { λ it. leave_keeps it.cell };

    ghost foreign = { λ it. foreign_keeps it.cell };
}
