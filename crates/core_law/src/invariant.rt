//! The invariant holds where nothing has happened, and it tells what the invariant of the table says.
ghost use Rattle.std.specs.Prelude.{ℕ, ◌<◌};
ghost use Rattle.core_events.specs.declared.act.Act.{Act};
ghost use Rattle.core_events.specs.declared.shape.Shape.{Shape};
ghost use Rattle.core_events.specs.declared.view.CoreView.{CoreView};
ghost use Rattle.core_events.specs.Good.{Good, SeatLaw};
ghost use Rattle.core_events.specs.Runs.{AreTerms, Core, IsShape, start};
ghost use Rattle.core_events.specs.Steps.{May, place};
ghost use Rattle.core_events.specs.Views.{Terms};
ghost use Rattle.core_events.specs.Words.{word_count};
ghost use Rattle.core_law.specs.Sound.{Sound};

/// The invariant in the form that one event keeps holds at the start,
pub fn start_is_sound()
    ensures { (z : Shape) (ts : Terms) → IsShape z → AreTerms z ts → Sound z (start z ts) }
{}

/// and it gives the invariant of the table.
pub fn sound_is_good()
    ensures { (z : Shape) (c : Core) → Sound z c → Good z c }
{}

/// The word that an act is on is there, by what holds of the seat alone.
pub fn words_are_there()
    ensures { (z : Shape) (n : ℕ) (v : CoreView) → SeatLaw z n v → n < z.seats
        → (a : Act) → May z a v → place z a v < word_count z }
{}
