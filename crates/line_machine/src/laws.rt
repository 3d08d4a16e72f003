//! What holds of the definitions themselves.
ghost use Rattle.std.specs.Prelude.{◌≡◌, ℕ, Bool, List};
ghost use Rattle.line_machine.specs.Runs.{IsDefinite, IsRun};

use crate::machine::LineMachine;

/// Where a machine leaves nothing open, a text has one output from each of its states: the bytes are one, whether a
/// line is refused, and the state to which it leads.
pub fn runs_are_one<A, M: LineMachine<A>>()
    ensures { IsDefinite M.takes M.refuses M.ends → (s : M) (text bytes others : List ℕ)
        (refused other : Bool) (last end : M)
        → IsRun M.takes M.refuses M.ends s text bytes refused last
        → IsRun M.takes M.refuses M.ends s text others other end
        → (bytes ≡ others) × (refused ≡ other) × (last ≡ end) }
{}
