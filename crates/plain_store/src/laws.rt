//! What settling leaves, whoever settles.
ghost use Rattle.std.specs.Prelude.{ℕ, List};
ghost use Rattle.plain_state.specs.declared.act.PlainAct.{PlainAct};
ghost use Rattle.plain_state.specs.State.{Plain};
ghost use Rattle.plain_store.specs.Settling.{SettlesBy, IsSettled, EjectsAsAnnounced};

/// Of the deferred entries a settling leaves what the rule of ejection keeps, in their order: of equal entries the
/// earlier ones stay, as many as are announced. It does nothing.
pub fn settling_ejects_as_announced()
    ensures { (weight : List ℕ → ℕ) (acts : List PlainAct) (p q : Plain) (total : ℕ)
        → SettlesBy weight acts p total q → IsSettled q → EjectsAsAnnounced acts p q }
{}
