//! When a state is settled.
ghost use Rattle.plain_audit.specs.plain_state.Fits.{AllFit};
ghost use Rattle.plain_audit.specs.plain_state.Lawful.{Lawful};
ghost use Rattle.plain_audit.specs.plain_state.State.{Plain};
ghost use Rattle.cell_law.specs.directory_law.Bytes.{IsPiece};
ghost use Rattle.cell_law.specs.Promises.{IsSettled};
ghost use Rattle.cell_rest.specs.Rest.{Rests};

/// A state whose cells are null, in which nothing is deferred or dying and each object that lives has a reference, is
/// settled, where all objects are heads and parts.
pub fn states_at_rest_are_settled()
    ensures { (p : Plain) → Lawful p → AllFit IsPiece p → Rests p → IsSettled p }
{}
