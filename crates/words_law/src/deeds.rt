//! What the deeds of a directory leave of what its seat knows.
ghost use Rattle.std.specs.Prelude.{ℕ, Bool};
ghost use Rattle.protocol_pairs.specs.plain_state.declared.act.PlainAct.{PlainAct};
ghost use Rattle.protocol_pairs.specs.plain_protocol.Owns.{OwnPart};
ghost use Rattle.directory_law.specs.declared.view.View.{View};
ghost use Rattle.directory_law.specs.Cells.{Area};
ghost use Rattle.directory_law.specs.Making.{bind_next, link_next, make_next};
ghost use Rattle.directory_law.specs.Lessons.{answer_next, draw_next, forget_next, lead_next, read_next, see_next, upgrade_next};
ghost use Rattle.words_law.specs.Known.{ForgetsNothing};

/// No deed of a directory forgets what its seat saw, read or bound. So what the seat may push it may push, and what it
/// knows of texts it knows, whatever it interns and finds.
pub fn directory_deeds_forget_nothing()
    ensures make { (own after : OwnPart) (v : View) (step : PlainAct) (found : ℕ)
        → ForgetsNothing v (make_next own after v step found) }
    ensures link { (own after : OwnPart) (v : View) (step : PlainAct) (found : ℕ)
        → ForgetsNothing v (link_next own after v step found) }
    ensures bind { (own after : OwnPart) (v : View) (step : PlainAct) (found : ℕ)
        → ForgetsNothing v (bind_next own after v step found) }
    ensures see { (own after : OwnPart) (v : View) (step : PlainAct) (z : Area) (found : ℕ)
        → ForgetsNothing v (see_next z own after v step found) }
    ensures upgrade { (own after : OwnPart) (v : View) (step : PlainAct) (spends : Bool) (found : ℕ)
        → ForgetsNothing v (upgrade_next spends own after v step found) }
    ensures lead { (own after : OwnPart) (v : View) (step : PlainAct) (found : ℕ)
        → ForgetsNothing v (lead_next own after v step found) }
    ensures read { (own after : OwnPart) (v : View) (step : PlainAct) (found : ℕ)
        → ForgetsNothing v (read_next own after v step found) }
    ensures answer { (own after : OwnPart) (v : View) (step : PlainAct) (spends : Bool) (found : ℕ)
        → ForgetsNothing v (answer_next spends own after v step found) }
    ensures forget { (own after : OwnPart) (v : View) (step : PlainAct) (found : ℕ)
        → ForgetsNothing v (forget_next own after v step found) }
    ensures draw { (own after : OwnPart) (v : View) (step : PlainAct) (z : Area) (found : ℕ)
        → ForgetsNothing v (draw_next z own after v step found) }
{}
