//! How what calls keep composes.
ghost use Rattle.std.specs.Prelude.{ℕ, ◌≡◌, ◌+◌, ◌≤◌, List};
ghost use Rattle.cell_protocol.specs.cell_law.plain_state.declared.slot.SlotId.{SlotId};
ghost use Rattle.cell_protocol.specs.cell_law.plain_state.Lists.{times};
ghost use Rattle.cell_protocol.specs.cell_law.declared.view.View.{View};
ghost use Rattle.epoch_refs.specs.epoch_core.Views.{Holds};
ghost use Rattle.epoch_refs.specs.epoch_domain.Seats.{SeatState};
ghost use Rattle.cell_calls.specs.Keeping.{Keeps};

/// What calls one after another keep: each keeps what it says, and together they use as many makes and adds as all of
/// them, where what the seat held before and holds in the end it held in between. A call that does nothing keeps all.
pub fn calls_keep_in_turn()
    ensures nothing { (s : SeatState View) → Keeps 0 0 s.view.core.owned s s }
    ensures then { (m n a b : ℕ) (first second : List SlotId) (old mid new : SeatState View)
        → Keeps m a first old mid → Keeps n b second mid new
        → ((x : SlotId) → Holds old.view.core x → Holds new.view.core x
        → Holds mid.view.core x) → Keeps (m + n) (a + b) second old new }
    ensures wider { (m n a b : ℕ) (first second : List SlotId) (old new : SeatState View)
        → Keeps m a first old new → m ≤ n → a ≤ b
        → ((x : SlotId) → times x first ≡ times x second) → Keeps n b second old new }
{}
