//! What other steps than the deeds leave of the law.
ghost use Rattle.plain_protocol.specs.Laws.{KeptByCalm, KeptByForeign, KeptByLeave, Starts};
ghost use Rattle.directory_law.specs.Cells.{Area};
ghost use Rattle.cell_law.specs.Views.{gone, joined};
ghost use Rattle.cell_law.specs.Law.{CellLaw};
ghost use Rattle.cell_law.specs.Owned.{first_view, owns};

/// The law holds of the state with nothing in it and the first views. Calm steps keep it, and so do steps that leave
/// alone what the protocol owns, and a seat that leaves, whose view joins that of seat 0.
pub fn others_keep_the_law()
    ensures start { (z : Area) → Starts (CellLaw z) (first_view z) }
    ensures calm { (z : Area) → KeptByCalm (CellLaw z) }
    ensures foreign { (z : Area) → KeptByForeign (CellLaw z) (owns z) }
    ensures leave { (z : Area) → KeptByLeave (CellLaw z) joined gone }
{}
