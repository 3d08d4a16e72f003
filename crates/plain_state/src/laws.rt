//! What holds of the plain state, whatever its steps were.
ghost use Rattle.std.specs.Prelude.{ℕ, List};
ghost use Rattle.plain_state.specs.declared.act.PlainAct.{PlainAct};
ghost use Rattle.plain_state.specs.State.{Plain, empty};
ghost use Rattle.plain_state.specs.Steps.{Does};
ghost use Rattle.plain_state.specs.Sound.{Sound};
ghost use Rattle.plain_state.specs.Runs.{Runs};

/// The state with nothing in it is lawful, and every step of every seat keeps it so.
pub fn steps_keep_sound()
    ensures start { (seats slots cells weak_cells : ℕ)
        → Sound (empty seats slots cells weak_cells) }
    ensures step { (p q : Plain) (n : ℕ) (act : PlainAct) (found : ℕ)
        → Sound p → Does p n act found q → Sound q }
{}
