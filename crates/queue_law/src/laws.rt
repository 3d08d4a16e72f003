//! What other steps than the queue's own leave of the law.
ghost use Rattle.plain_protocol.specs.Laws.{Starts, KeptByCalm, KeptByForeign, KeptByLeave};
ghost use Rattle.queue_law.specs.Views.{first_view, view_of, joined};
ghost use Rattle.queue_law.specs.Chain.{Ends};
ghost use Rattle.queue_law.specs.Law.{WholeLaw};
ghost use Rattle.queue_law.specs.Owned.{owns};

/// The law holds of the state with nothing in it and the first views. Calm steps keep it, and so do steps that leave
/// alone what the queue owns, and a seat that leaves, whose view joins seat 0's.
pub fn others_keep_the_law()
    ensures start { (u : Ends) → Starts (WholeLaw u) (view_of u.form) }
    ensures calm { (u : Ends) → KeptByCalm (WholeLaw u) }
    ensures foreign { (u : Ends) → KeptByForeign (WholeLaw u) (owns u) }
    ensures leave { (u : Ends) → KeptByLeave (WholeLaw u) joined first_view }
{}
