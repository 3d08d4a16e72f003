//! What other steps than the directory's own leave of the law.
ghost use Rattle.plain_protocol.specs.Laws.{Starts, KeptByCalm, KeptByForeign, KeptByLeave};
ghost use Rattle.directory_law.specs.Views.{gone, joined};
ghost use Rattle.directory_law.specs.Cells.{Area};
ghost use Rattle.directory_law.specs.Law.{DirectoryLaw};
ghost use Rattle.directory_law.specs.Owned.{owns, first_view};

/// The law holds of the state with nothing in it and the first views. Calm steps keep it, and so do steps that leave
/// alone what the directory owns, and a seat that leaves, whose view joins that of seat 0.
pub fn others_keep_the_law()
    ensures start { (z : Area) → Starts (DirectoryLaw z) (first_view z) }
    ensures calm { (z : Area) → KeptByCalm (DirectoryLaw z) }
    ensures foreign { (z : Area) → KeptByForeign (DirectoryLaw z) (owns z) }
    ensures leave { (z : Area) → KeptByLeave (DirectoryLaw z) joined gone }
{}
