//! When a state rests.
ghost use Rattle.std.specs.Prelude.{◌≡◌, ◌<◌, ℕ, [], None};
ghost use Rattle.plain_audit.specs.plain_state.State.{Plain, seat_at};
ghost use Rattle.plain_audit.specs.plain_store.Settling.{IsSettled};
ghost use Rattle.words_rest.specs.Rest.{IsQuiet, Rests};

/// A state that has settled rests, where seat 0 is under no snapshot, fills no slot and owns nothing weakly, and every
/// other seat is quiet.
pub fn settled_states_rest()
    ensures { (p : Plain) → IsSettled p → (seat_at p 0).snapshots ≡ []
        → (seat_at p 0).filling ≡ None → (seat_at p 0).weaks ≡ []
        → ((n : ℕ) → 0 < n → IsQuiet (seat_at p n)) → Rests p }
{}
